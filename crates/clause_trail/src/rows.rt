//! How a clause is read over a trail, literal by literal.

ghost use Rattle.std.specs.Prelude.{◌≡◌, List, [], ◌∷◌, map, not, IfOk};
ghost use Rattle.op_constraints.specs.declared.Lit.{Lit};
ghost use Rattle.derivations.specs.declared.Hint.TheVariants as hints;
ghost use Rattle.clause_trail.specs.declared.rows.Left.TheVariants.{Nothing};
ghost use Rattle.clause_trail.specs.Trails.{literals};
ghost use Rattle.clause_trail.specs.Rows.{added, scanned};
ghost use Rattle.clause_trail.specs.Scans.{Reads, ScansClause};

use crate::{Reason, Scan, Trail};
use derivations::Hint;
use olm_base::{Many, Memory};
use op_constraints::{Lit, VarId};
use std::alloc::Global;

/// What is left of a clause whose false literals are taken out. Equal literals count as one.
#[derive(Clone, Copy, Debug, PartialEq, Eq)]
pub(crate) enum Left {
    Nothing,
    Only(Lit),
    Several,
}

/// What a clause says over a trail.
#[derive(Clone, Copy, Debug, PartialEq, Eq)]
pub(crate) enum Status {
    Settled,
    Unit(Lit),
    Conflict,
}

/// The literal that says the opposite.
fn deny(lit: Lit) -> Lit
    ensures { result ≡ record { var = lit.var; positive = not lit.positive } }
{
    Lit {
        var: lit.var,
        positive: !lit.positive,
    }
}

/// What is left with one literal more.
pub(crate) fn add(trail: &Trail, left: Left, lit: Lit) -> Left
    ensures { result ≡ added (literals trail.now.entries) left lit }
{
    if trail.is_true(&deny(lit)) {
        return left;
    }
    match left {
        Left::Nothing => Left::Only(lit),
        Left::Only(first) => {
            if lit == first {
                Left::Only(first)
            } else {
                Left::Several
            }
        }
        Left::Several => Left::Several,
    }
}

/// What is left after what was left before these literals.
fn read(trail: &Trail, before: Left, lits: &[Lit]) -> Left
    ensures { result ≡ scanned (literals trail.now.entries) before lits.now }
{
    let mut left = before;
    for lit in lits {
        left = add(trail, left, *lit);
    }
    left
}

/// The same for literals of one sign.
fn read_vars(trail: &Trail, before: Left, vars: &[VarId], positive: bool) -> Left
    ensures { result ≡ scanned (literals trail.now.entries) before (map (λ v. record { var = v; positive = positive }) vars.now) }
{
    let mut left = before;
    for var in vars {
        left = add(
            trail,
            left,
            Lit {
                var: *var,
                positive,
            },
        );
    }
    left
}

/// What a clause says of which this is left.
fn status_of(trail: &Trail, left: Left) -> Status
    ensures { (clause : List Lit) → left ≡ scanned (literals trail.now.entries) Nothing clause → Reads (literals trail.now.entries) clause result }
{
    match left {
        Left::Nothing => Status::Conflict,
        Left::Only(lit) => {
            if trail.is_true(&lit) {
                Status::Settled
            } else {
                Status::Unit(lit)
            }
        }
        Left::Several => Status::Settled,
    }
}

/// What the clause with this hint says over the trail.
fn with_reason(status: Status, hint: Hint, lits: Many<Lit>) -> Scan
    ensures { (trail : List Lit) → Reads trail lits status → ScansClause trail hint lits result }
{
    match status {
        Status::Settled => Scan::Settled,
        Status::Unit(lit) => Scan::Unit(lit, Reason { hint, lits }),
        Status::Conflict => Scan::Conflict(Reason { hint, lits }),
    }
}

/// What the lemma with this number says over the trail.
pub fn scan_lemma(alloc: Global, trail: &Trail, number: u32, lits: &[Lit]) -> Result<Scan, Memory>
    ensures { IfOk result (λ scan. ScansClause (literals trail.now.entries) (hints.Lemma number) lits.now scan) }
{
    let status = status_of(trail, read(trail, Left::Nothing, lits));
    if let Status::Settled = status {
        return Ok(Scan::Settled);
    }
    let mut copy = Vec::new(alloc);
    copy.extend_from_slice(lits)?;
    Ok(with_reason(status, Hint::Lemma(number), Many::from_vec(copy)))
}

/// The clause of a literal of the variable and of those of the others, which have one sign.
fn row(
    alloc: Global,
    var: VarId,
    first: bool,
    others: &[VarId],
    positive: bool,
) -> Result<Many<Lit>, Memory>
    ensures { IfOk result (λ lits. lits ≡ record { var = var; positive = first } ∷ map (λ v. record { var = v; positive = positive }) others.now) }
{
    let mut lits = vec![in alloc;
        Lit {
            var,
            positive: first
        },
    ]?;
    for other in others {
        lits.push(Lit {
            var: *other,
            positive,
        })?;
    }
    Ok(Many::from_vec(lits))
}

/// What a clause says that a constraint of the variable gives: a literal of the variable, and those of the others, which have one sign.
pub(crate) fn scan_row(
    alloc: Global,
    trail: &Trail,
    var: VarId,
    place: u32,
    first: bool,
    others: &[VarId],
    positive: bool,
) -> Result<Scan, Memory>
    ensures { IfOk result (λ scan. ScansClause (literals trail.now.entries) (hints.Given var place [])
        (record { var = var; positive = first } ∷ map (λ v. record { var = v; positive = positive }) others.now) scan) }
{
    let own = add(
        trail,
        Left::Nothing,
        Lit {
            var,
            positive: first,
        },
    );
    let status = status_of(trail, read_vars(trail, own, others, positive));
    if let Status::Settled = status {
        return Ok(Scan::Settled);
    }
    let hint = Hint::Given {
        var,
        constraint: place,
        members: Many::new(alloc),
    };
    Ok(with_reason(status, hint, row(alloc, var, first, others, positive)?))
}
