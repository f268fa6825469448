// Hints, clauses and the lines that have them.
ghost use Rattle.std.specs.Prelude.{◌≡◌, Some, None};
ghost use Rattle.olm_base.specs.Outcome.{Gives};
ghost use Rattle.derivations.specs.Reading as spec;
ghost use Rattle.derivations.specs.Reading.{is_free_in_line};

use crate::reading::cuts::{before, behind, cut};
use crate::reading::each::each;
use crate::reading::tokens::{LineFault, Written, both, number};
use crate::{Hint, Lemma, Refutation};
use olm_base::Many;
use op_constraints::{Lit, VarId};
use std::alloc::Global;

fn members(alloc: Global, text: &[u8]) -> Result<Many<VarId>, LineFault>
    ensures { Gives is_free_in_line (spec.members text.now) result }
{
    match before(b')', text) {
        Some(inner) => each(alloc, b',', inner),
        None => Err(LineFault::Form),
    }
}

fn place(alloc: Global, text: &[u8]) -> Result<(u32, Many<VarId>), LineFault>
    ensures { Gives is_free_in_line (spec.place text.now (spec.cut 40 text.now)) result }
{
    match cut(b'(', text) {
        Some((constraint, around)) => both(number(constraint), members(alloc, around)),
        None => match number(text) {
            Ok(constraint) => Ok((constraint, Many::new(alloc))),
            Err(fault) => Err(fault),
        },
    }
}

fn given(alloc: Global, var: &[u8], rest: &[u8]) -> Result<Hint, LineFault>
    ensures { Gives is_free_in_line (spec.given (var.now, rest.now)) result }
{
    match both(number(var), place(alloc, rest)) {
        Ok((var, (constraint, members))) => Ok(Hint::Given {
            var: VarId(var),
            constraint,
            members,
        }),
        Err(fault) => Err(fault),
    }
}

fn lemma_hint(text: &[u8]) -> Result<Hint, LineFault>
    ensures { result ≡ spec.made Hint.Lemma (spec.number text.now) }
{
    match number(text) {
        Ok(value) => Ok(Hint::Lemma(value)),
        Err(fault) => Err(fault),
    }
}

impl Written for Hint {
    ghost meaning = { spec.hint };

    fn read(alloc: Global, text: &[u8]) -> Result<Hint, LineFault> {
        match text {
            [] => Err(LineFault::Form),
            [kind, rest @ ..] => match *kind {
                b'L' => lemma_hint(rest),
                b'G' => match cut(b'.', rest) {
                    Some((var, rest)) => given(alloc, var, rest),
                    None => Err(LineFault::Form),
                },
                _ => Err(LineFault::Form),
            },
        }
    }
}

// Items that have each a space before it.
pub(crate) fn spaced<T: Written + Drop>(alloc: Global, text: &[u8]) -> Result<Many<T>, LineFault>
    ensures { Gives is_free_in_line (spec.spaced T.meaning text.now) result }
{
    match text {
        [] => Ok(Many::new(alloc)),
        [b' ', items @ ..] => each(alloc, b' ', items),
        _ => Err(LineFault::Form),
    }
}

// Literals that have each a space behind it.
fn lits(alloc: Global, text: &[u8]) -> Result<Many<Lit>, LineFault>
    ensures { Gives is_free_in_line (spec.lits text.now) result }
{
    if text.is_empty() {
        return Ok(Many::new(alloc));
    }
    match before(b' ', text) {
        Some(items) => each(alloc, b' ', items),
        None => Err(LineFault::Form),
    }
}

pub(crate) fn refutation(alloc: Global, text: &[u8]) -> Result<Refutation, LineFault>
    ensures { Gives is_free_in_line (spec.refutation text.now) result }
{
    match cut(b':', text) {
        Some((before, after)) => match both(lits(alloc, before), spaced(alloc, after)) {
            Ok((lits, hints)) => Ok(Refutation { lits, hints }),
            Err(fault) => Err(fault),
        },
        None => Err(LineFault::Form),
    }
}

impl Written for Lemma {
    ghost meaning = { spec.lemma };

    fn read(alloc: Global, line: &[u8]) -> Result<Lemma, LineFault> {
        match behind(b"lemma ", line) {
            Some(text) => match refutation(alloc, text) {
                Ok(Refutation { lits, hints }) => Ok(Lemma { lits, hints }),
                Err(fault) => Err(fault),
            },
            None => Err(LineFault::Form),
        }
    }
}

// The second number of a step, and its clause.
fn candidate(alloc: Global, text: &[u8]) -> Result<(u32, Refutation), LineFault>
    ensures { Gives is_free_in_line (spec.candidate text.now) result }
{
    match cut(b' ', text) {
        Some((candidate, rest)) => both(number(candidate), refutation(alloc, rest)),
        None => Err(LineFault::Form),
    }
}

fn step(alloc: Global, text: &[u8]) -> Result<(u32, u32, Refutation), LineFault>
    ensures { Gives is_free_in_line (spec.step_text text.now) result }
{
    match cut(b' ', text) {
        Some((choice, rest)) => match both(number(choice), candidate(alloc, rest)) {
            Ok((choice, (candidate, refutation))) => Ok((choice, candidate, refutation)),
            Err(fault) => Err(fault),
        },
        None => Err(LineFault::Form),
    }
}

impl Written for (u32, u32, Refutation) {
    ghost meaning = { spec.step };

    fn read(alloc: Global, line: &[u8]) -> Result<(u32, u32, Refutation), LineFault> {
        match behind(b"refute ", line) {
            Some(text) => step(alloc, text),
            None => Err(LineFault::Form),
        }
    }
}
