// The text of a certificate.
ghost use Rattle.std.specs.Prelude.{◌≡◌, ◌∷◌, ◌++◌, OnOk, IfOk, Ok};
ghost use Rattle.std.specs.List.{AllByRecursion};
ghost use Rattle.std.specs.Fmt.{decimal};
ghost use Rattle.derivations.specs.Text.{joined, token, lit_text, later_member, members_text, hint_text, clause_text, lemma_line, step_line, finding_word, finding_lines, certificate_text};
ghost use Rattle.derivations.specs.Fits.{NumberFits, LitFits, HintFits, ClauseFits, LemmaFits, StepFits, FindingFits};
ghost use Rattle.derivations.specs.Reading.{certificate_of};

use crate::{Certificate, Finding, Hint, Lemma, Refutation};
use olm_base::{Bytes, Memory};
use op_constraints::{Lit, VarId};
use std::alloc::Global;

/// Writes the number behind one byte.
fn put_number(out: &mut Vec<u8>, alloc: Global, before: u8, number: u32) -> Result<(), Memory>
    ensures text { OnOk result (out.new.items ≡ out.old.items ++ before ∷ decimal number) }
    ensures fits { NumberFits number }
{
    let text = number.to_string(alloc)?;
    out.push(before)?;
    out.extend_from_slice(text.as_bytes())?;
    Ok(())
}

fn put_lits(out: &mut Vec<u8>, alloc: Global, lits: &[Lit]) -> Result<(), Memory>
    ensures text { OnOk result (out.new.items ≡ out.old.items ++ joined (λ l. token (lit_text l)) lits.now) }
    ensures fits { OnOk result (AllByRecursion LitFits lits.now) }
{
    for lit in lits {
        out.push(b' ')?;
        let sign = if lit.positive { b'+' } else { b'-' };
        put_number(out, alloc, sign, lit.var.0)?;
    }
    Ok(())
}

fn put_later_members(out: &mut Vec<u8>, alloc: Global, members: &[VarId]) -> Result<(), Memory>
    ensures text { OnOk result (out.new.items ≡ out.old.items ++ joined later_member members.now) }
    ensures fits { OnOk result (AllByRecursion NumberFits members.now) }
{
    for member in members {
        put_number(out, alloc, b',', member.0)?;
    }
    Ok(())
}

fn put_members(out: &mut Vec<u8>, alloc: Global, members: &[VarId]) -> Result<(), Memory>
    ensures text { OnOk result (out.new.items ≡ out.old.items ++ members_text members.now) }
    ensures fits { OnOk result (AllByRecursion NumberFits members.now) }
{
    if let [first, later @ ..] = members {
        put_number(out, alloc, b'(', first.0)?;
        put_later_members(out, alloc, later)?;
        out.push(b')')?;
    }
    Ok(())
}

fn put_hint(out: &mut Vec<u8>, alloc: Global, hint: &Hint) -> Result<(), Memory>
    ensures text { OnOk result (out.new.items ≡ out.old.items ++ hint_text hint.now) }
    ensures fits { OnOk result (HintFits hint.now) }
{
    match hint {
        Hint::Lemma(number) => put_number(out, alloc, b'L', *number),
        Hint::Given {
            var,
            constraint,
            members,
        } => {
            put_number(out, alloc, b'G', var.0)?;
            put_number(out, alloc, b'.', *constraint)?;
            put_members(out, alloc, members.as_slice())
        }
    }
}

fn put_hints(out: &mut Vec<u8>, alloc: Global, hints: &[Hint]) -> Result<(), Memory>
    ensures text { OnOk result (out.new.items ≡ out.old.items ++ joined (λ h. token (hint_text h)) hints.now) }
    ensures fits { OnOk result (AllByRecursion HintFits hints.now) }
{
    for hint in hints {
        out.push(b' ')?;
        put_hint(out, alloc, hint)?;
    }
    Ok(())
}

fn put_clause(out: &mut Vec<u8>, alloc: Global, lits: &[Lit], hints: &[Hint]) -> Result<(), Memory>
    ensures text { OnOk result (out.new.items ≡ out.old.items ++ clause_text lits.now hints.now) }
    ensures fits { OnOk result (ClauseFits lits.now hints.now) }
{
    put_lits(out, alloc, lits)?;
    out.extend_from_slice(b" :")?;
    put_hints(out, alloc, hints)
}

fn put_lemmas(out: &mut Vec<u8>, alloc: Global, lemmas: &[Lemma]) -> Result<(), Memory>
    ensures text { OnOk result (out.new.items ≡ out.old.items ++ joined lemma_line lemmas.now) }
    ensures fits { OnOk result (AllByRecursion LemmaFits lemmas.now) }
{
    for lemma in lemmas {
        out.extend_from_slice(b"lemma")?;
        put_clause(out, alloc, lemma.lits.as_slice(), lemma.hints.as_slice())?;
        out.push(b'\n')?;
    }
    Ok(())
}

fn put_numbers(out: &mut Vec<u8>, alloc: Global, numbers: &[u32]) -> Result<(), Memory>
    ensures text { OnOk result (out.new.items ≡ out.old.items ++ joined (λ n. token (decimal n)) numbers.now) }
    ensures fits { OnOk result (AllByRecursion NumberFits numbers.now) }
{
    for number in numbers {
        put_number(out, alloc, b' ', *number)?;
    }
    Ok(())
}

fn put_steps(
    out: &mut Vec<u8>,
    alloc: Global,
    steps: &[(u32, u32, Refutation)],
) -> Result<(), Memory>
    ensures text { OnOk result (out.new.items ≡ out.old.items ++ joined step_line steps.now) }
    ensures fits { OnOk result (AllByRecursion StepFits steps.now) }
{
    for step in steps {
        out.extend_from_slice(b"refute")?;
        put_number(out, alloc, b' ', step.0)?;
        put_number(out, alloc, b' ', step.1)?;
        put_clause(out, alloc, step.2.lits.as_slice(), step.2.hints.as_slice())?;
        out.push(b'\n')?;
    }
    Ok(())
}

fn put_word(out: &mut Vec<u8>, finding: &Finding) -> Result<(), Memory>
    ensures { OnOk result (out.new.items ≡ out.old.items ++ finding_word finding.now) }
{
    let word = match finding {
        Finding::Chosen {
            walk: _,
            refutations: _,
        } => b"chosen\n".as_slice(),
        Finding::Refused { refutation: _ } => b"refused\n",
        Finding::Undecided => b"undecided\n",
    };
    out.extend_from_slice(word)?;
    Ok(())
}

fn put_finding(out: &mut Vec<u8>, alloc: Global, finding: &Finding) -> Result<(), Memory>
    ensures text { OnOk result (out.new.items ≡ out.old.items ++ finding_lines finding.now) }
    ensures fits { OnOk result (FindingFits finding.now) }
{
    match finding {
        Finding::Chosen { walk, refutations } => {
            out.extend_from_slice(b"walk")?;
            put_numbers(out, alloc, walk.as_slice())?;
            out.push(b'\n')?;
            put_steps(out, alloc, refutations.as_slice())
        }
        Finding::Refused { refutation } => {
            out.extend_from_slice(b"refute-all")?;
            put_clause(
                out,
                alloc,
                refutation.lits.as_slice(),
                refutation.hints.as_slice(),
            )?;
            out.push(b'\n')?;
            Ok(())
        }
        Finding::Undecided => Ok(()),
    }
}

/// The one spelling of a certificate, in lines that end with a line feed. It is read as this certificate.
pub fn write_certificate(alloc: Global, certificate: &Certificate) -> Result<Bytes, Memory>
    ensures text { IfOk result (λ text. text ≡ certificate_text certificate.now) }
    ensures read { IfOk result (λ text. certificate_of text ≡ Ok certificate.now) }
{
    let mut out = Vec::new(alloc);
    out.extend_from_slice(b"certificate 1 ")?;
    put_word(&mut out, &certificate.finding)?;
    out.extend_from_slice(b"vars")?;
    put_number(&mut out, alloc, b' ', certificate.vars)?;
    out.push(b'\n')?;
    put_lemmas(&mut out, alloc, certificate.log.lemmas.as_slice())?;
    put_finding(&mut out, alloc, &certificate.finding)?;
    out.extend_from_slice(b"end\n")?;
    Ok(Bytes::from_vec(out))
}
