// How a clause is read, literal by literal, against what is known of each variable.
ghost use Rattle.std.specs.Prelude.{◌≡◌, map, not};
ghost use Rattle.derivation_check.specs.Scan.{is_said, added, scanned, forced_by};

use crate::marks::Marks;
use op_constraints::{Lit, VarId};

/// What is left of a clause whose false literals are taken out. Equal literals count as one.
#[derive(Clone, Copy, Debug, PartialEq, Eq)]
pub(crate) enum Left {
    Nothing,
    Only(Lit),
    Several,
}

/// Whether the literal is true by the marks.
fn is_true(marks: &Marks, lit: &Lit) -> bool
    ensures { result ≡ is_said marks.now lit.now }
{
    marks.get(lit.var) == Some(lit.positive)
}

/// What is left with one literal more.
pub(crate) fn add(marks: &Marks, left: Left, lit: Lit) -> Left
    ensures { result ≡ added marks.now left lit }
{
    if is_true(marks, &deny(lit)) {
        return left;
    }
    match left {
        Left::Nothing => Left::Only(lit),
        Left::Only(first) => {
            if lit == first {
                Left::Only(first)
            } else {
                Left::Several
            }
        }
        Left::Several => Left::Several,
    }
}

/// The literal that says the opposite.
fn deny(lit: Lit) -> Lit
    ensures { result ≡ record { var = lit.var; positive = not lit.positive } }
{
    Lit {
        var: lit.var,
        positive: !lit.positive,
    }
}

/// What is left after what was left before these literals.
pub(crate) fn scan(marks: &Marks, before: Left, lits: &[Lit]) -> Left
    ensures { result ≡ scanned marks.now before lits.now }
{
    let mut left = before;
    for lit in lits {
        left = add(marks, left, *lit);
    }
    left
}

/// The same for literals of one sign.
pub(crate) fn scan_vars(marks: &Marks, before: Left, vars: &[VarId], positive: bool) -> Left
    ensures { result ≡ scanned marks.now before (map (λ v. record { var = v; positive = positive }) vars.now) }
{
    let mut left = before;
    for var in vars {
        left = add(
            marks,
            left,
            Lit {
                var: *var,
                positive,
            },
        );
    }
    left
}

pub(crate) fn lit(var: VarId, positive: bool) -> Lit
    ensures { result ≡ record { var = var; positive = positive } }
{
    Lit { var, positive }
}

/// What a hint before the last forces.
pub(crate) fn forced(marks: &Marks, left: Left) -> Option<Lit>
    ensures { result ≡ forced_by marks.now left }
{
    let Left::Only(lit) = left else {
        return None;
    };
    if is_true(marks, &lit) {
        None
    } else {
        Some(lit)
    }
}
