// The texts of faults and verdicts.
ghost use Rattle.std.specs.Prelude.{◌≡◌, ◌++◌, false, OnOk};
ghost use Rattle.derivations.specs.Text.{token};
ghost use Rattle.derivations.specs.Reading.{is_free};
ghost use Rattle.answer_lines.specs.Verdicts as spec;

use crate::pieces::{push_number, push_token};
use derivation_check::{CertFault, LogCause, Verdict};
use derivations::CertText;
use olm_base::Memory;
use std::alloc::Global;

fn cause_text(cause: LogCause) -> &'static [u8]
    ensures { result.now ≡ spec.cause_text cause }
{
    match cause {
        LogCause::BadClause => b"bad-clause",
        LogCause::NoSuchHint => b"no-such-hint",
        LogCause::BadGiven => b"bad-given",
        LogCause::HintNotUnit => b"hint-not-unit",
        LogCause::NoConflict => b"no-conflict",
    }
}

fn push_cause(out: &mut Vec<u8>, cause: LogCause) -> Result<(), Memory>
    ensures { OnOk result (out.new.items ≡ out.old.items ++ token (spec.cause_text cause)) }
{
    push_token(out, cause_text(cause))
}

/// Appends a word and a number.
fn push_one(out: &mut Vec<u8>, alloc: Global, word: &[u8], number: u64) -> Result<(), Memory>
    ensures { OnOk result (out.new.items ≡ out.old.items ++ spec.with_one word.now number) }
{
    out.extend_from_slice(word)?;
    push_number(out, alloc, number)
}

/// Appends a word and two numbers.
fn push_two(
    out: &mut Vec<u8>,
    alloc: Global,
    word: &[u8],
    first: u32,
    second: u32,
) -> Result<(), Memory>
    ensures { OnOk result (out.new.items ≡ out.old.items ++ spec.with_two word.now first second) }
{
    out.extend_from_slice(word)?;
    push_number(out, alloc, u64::from(first))?;
    push_number(out, alloc, u64::from(second))
}

pub fn push_verdict(out: &mut Vec<u8>, alloc: Global, verdict: Verdict) -> Result<(), Memory>
    ensures { OnOk result (out.new.items ≡ out.old.items ++ spec.verdict_text verdict) }
{
    match verdict {
        Verdict::Chosen { length } => push_one(out, alloc, b"chosen", u64::from(length)),
        Verdict::Refused => {
            out.extend_from_slice(b"refused")?;
            Ok(())
        }
        Verdict::Undecided { lemmas } => push_one(out, alloc, b"undecided", u64::from(lemmas)),
    }
}

pub fn push_fault(out: &mut Vec<u8>, alloc: Global, fault: CertFault) -> Result<(), Memory>
    ensures { OnOk result (out.new.items ≡ out.old.items ++ spec.fault_text fault) }
{
    match fault {
        CertFault::WrongSize { found, expected } => {
            push_two(out, alloc, b"wrong-size", found, expected)
        }
        CertFault::Lemma(fault) => {
            push_one(out, alloc, b"lemma", u64::from(fault.number))?;
            push_cause(out, fault.cause)
        }
        CertFault::Walk { position } => push_one(out, alloc, b"walk", u64::from(position)),
        CertFault::NotMet { var, constraint } => {
            push_two(out, alloc, b"not-met", var, constraint)
        }
        CertFault::Missing { choice, candidate } => {
            push_two(out, alloc, b"missing", choice, candidate)
        }
        CertFault::Extra { position } => push_one(out, alloc, b"extra", u64::from(position)),
        CertFault::Denies { choice, candidate } => {
            push_two(out, alloc, b"denies", choice, candidate)
        }
        CertFault::Step {
            choice,
            candidate,
            cause,
        } => {
            push_two(out, alloc, b"step", choice, candidate)?;
            push_cause(out, cause)
        }
        CertFault::WholeDenies => {
            out.extend_from_slice(b"whole-denies")?;
            Ok(())
        }
        CertFault::WholeStep { cause } => {
            out.extend_from_slice(b"whole-step")?;
            push_cause(out, cause)
        }
    }
}

/// Appends the fault of a text. Want of memory is none, and is handed on.
pub fn push_text_fault(out: &mut Vec<u8>, alloc: Global, fault: CertText) -> Result<(), Memory>
    ensures text { OnOk result (out.new.items ≡ out.old.items ++ spec.text_fault_text fault) }
    ensures fault { OnOk result (is_free fault ≡ false) }
{
    match fault {
        CertText::BadLine { line } => push_one(out, alloc, b"bad line", line),
        CertText::BadNumber { line } => push_one(out, alloc, b"bad number", line),
        CertText::CutShort => {
            out.extend_from_slice(b"cut short")?;
            Ok(())
        }
        CertText::Memory => Err(Memory),
    }
}
