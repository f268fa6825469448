// What follows by its hints, and the first lemma of a log that doesn't.
ghost use Rattle.std.specs.Prelude.{◌≡◌, [], ◌<◌, ◌≤◌, ◌^◌, IsTrue, length, take};
ghost use Rattle.std.specs.Option.{ok_or};
ghost use Rattle.std.specs.List.{AllByRecursion};
ghost use Rattle.op_constraints.specs.Meets.{IsWithin, IsClosed};
ghost use Rattle.derivations.specs.Clauses.{given_clause};
ghost use Rattle.derivations.specs.Follows.{clause_of, clauses, is_clause, fault_of, log_fault};
ghost use Rattle.derivation_check.specs.Scan.{left_of, answer, denied_in, are_new};

use crate::marks::Marks;
use crate::members::are_too_many;
use crate::scan::{Left, add, forced, lit, scan, scan_vars};
use derivations::{Hint, Lemma, LogCause, LogFault};
use op_constraints::{Constraint, Lit, Problem, VarId};

/// What is left of the clause that a constraint gives, where the named members fit it.
fn given_left(
    listed: &mut Marks,
    marks: &Marks,
    var: VarId,
    constraint: &Constraint,
    named: &[VarId],
) -> Result<Left, LogCause>
    requires { IsWithin (length listed.old) constraint.now }
    ensures left { result ≡ left_of marks.now (ok_or (given_clause var constraint.now named.now) LogCause.BadGiven) }
    ensures same { length listed.new ≡ length listed.old }
{
    if let Constraint::AtMost { most, members } = constraint {
        return if are_too_many(listed, *most, members.as_slice(), named) {
            Ok(scan_vars(marks, Left::Nothing, named, false))
        } else {
            Err(LogCause::BadGiven)
        };
    }
    if !named.is_empty() {
        return Err(LogCause::BadGiven);
    }
    let out = add(marks, Left::Nothing, lit(var, false));
    Ok(match constraint {
        Constraint::Mandatory => add(marks, Left::Nothing, lit(var, true)),
        Constraint::Prohibited => out,
        Constraint::Dependency(members) => scan_vars(marks, out, members.as_slice(), true),
        Constraint::Conflict(other) => add(marks, out, lit(*other, false)),
        Constraint::AtMost {
            most: _,
            members: _,
        } => Left::Several,
    })
}

/// What is left of the clause that a hint names: one of the first lemmas, or one of the problem.
fn hint_left(
    problem: &Problem,
    lemmas: &[Lemma],
    number: usize,
    listed: &mut Marks,
    marks: &Marks,
    hint: &Hint,
) -> Result<Left, LogCause>
    requires number { number ≤ length lemmas.now }
    requires closed { IsClosed problem.now }
    requires size { length listed.old ≡ length problem.now }
    ensures same { length listed.new ≡ length listed.old }
    ensures left { result ≡ left_of marks.now (clause_of problem.now (take number (clauses lemmas.now)) hint.now) }
{
    match hint {
        Hint::Lemma(at) => {
            let at = *at as usize;
            if at < number {
                Ok(scan(marks, Left::Nothing, lemmas[at].lits.as_slice()))
            } else {
                Err(LogCause::NoSuchHint)
            }
        }
        Hint::Given {
            var,
            constraint,
            members,
        } => {
            let Some(found) = problem.find(*var, *constraint) else {
                return Err(LogCause::BadGiven);
            };
            given_left(listed, marks, *var, found, members.as_slice())
        }
    }
}

/// The first fault of the hints, by the marks.
fn hints_fault(
    problem: &Problem,
    lemmas: &[Lemma],
    number: usize,
    listed: &mut Marks,
    marks: &mut Marks,
    hints: &[Hint],
) -> Option<LogCause>
    requires number { number ≤ length lemmas.now }
    requires closed { IsClosed problem.now }
    requires size { length listed.old ≡ length problem.now }
    ensures listed { length listed.new ≡ length listed.old }
    ensures answer { result ≡ answer problem.now (take number (clauses lemmas.now)) marks.old hints.now }
    ensures same { length marks.new ≡ length marks.old }
{
    for (i, hint) in hints.iter().enumerate() {
        let left = match hint_left(problem, lemmas, number, listed, marks, hint) {
            Ok(left) => left,
            Err(cause) => return Some(cause),
        };
        if i + 1 == hints.len() {
            return match left {
                Left::Nothing => None,
                _ => Some(LogCause::NoConflict),
            };
        }
        let lit = match forced(marks, left) {
            Some(lit) => lit,
            None => return Some(LogCause::HintNotUnit),
        };
        marks.set(lit.var, lit.positive);
    }
    Some(LogCause::NoConflict)
}

/// Marks the denials of a clause; whether it names each variable once, and variables of the problem alone.
fn deny_all(marks: &mut Marks, lits: &[Lit]) -> bool
    ensures denied { marks.new ≡ denied_in marks.old lits.now }
    ensures clause { result ≡ are_new marks.old lits.now }
    ensures same { length marks.new ≡ length marks.old }
{
    let mut good = true;
    for lit in lits {
        good = good && (lit.var.0 as usize) < marks.len() && marks.get(lit.var).is_none();
        marks.set(lit.var, !lit.positive);
    }
    good
}

/// Why a clause doesn't follow by these hints from the problem and the first lemmas.
pub(crate) fn fault(
    problem: &Problem,
    lemmas: &[Lemma],
    number: usize,
    listed: &mut Marks,
    marks: &mut Marks,
    lits: &[Lit],
    hints: &[Hint],
) -> Option<LogCause>
    requires number { number ≤ length lemmas.now }
    requires size { length marks.old ≡ length problem.now }
    requires listed { length listed.old ≡ length problem.now }
    requires closed { IsClosed problem.now }
    requires within { AllByRecursion (λ lemma. IsTrue (is_clause problem.now lemma.lits)) (take number lemmas.now) }
    ensures fault { result ≡ fault_of problem.now (take number (clauses lemmas.now)) lits.now hints.now }
    ensures listed { length listed.new ≡ length listed.old }
    ensures same { length marks.new ≡ length marks.old }
{
    marks.clear();
    if !deny_all(marks, lits) {
        return Some(LogCause::BadClause);
    }
    hints_fault(problem, lemmas, number, listed, marks, hints)
}

/// The first lemma that doesn't follow.
pub(crate) fn log_fault_of(
    problem: &Problem,
    listed: &mut Marks,
    marks: &mut Marks,
    lemmas: &[Lemma],
) -> Option<LogFault>
    requires short { length lemmas.now < 2 ^ 32 }
    requires size { length marks.old ≡ length problem.now }
    requires listed { length listed.old ≡ length problem.now }
    requires closed { IsClosed problem.now }
    ensures fault { result ≡ log_fault problem.now [] lemmas.now }
    ensures listed { length listed.new ≡ length listed.old }
    ensures same { length marks.new ≡ length marks.old }
{
    for (i, lemma) in lemmas.iter().enumerate() {
        let cause = fault(
            problem,
            lemmas,
            i,
            listed,
            marks,
            lemma.lits.as_slice(),
            lemma.hints.as_slice(),
        );
        match cause {
            None => {}
            Some(cause) => {
                return Some(LogFault {
                    number: i as u32,
                    cause,
                });
            }
        }
    }
    None
}
