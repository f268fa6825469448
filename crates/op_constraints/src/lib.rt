//! Variables, their constraints, and walks over them.
//!
//! A problem is a list of variables, each with its constraints. A set of variables meets it where every constraint is true of the set.
//! A walk begins with the Mandatory variables and goes through their Dependency lists in order: a list that holds something chosen is
//! passed, and from any other one member is picked by its number, whose own lists come last. Walks are ordered by their numbers, so the
//! best one is the first whose set meets the problem once no list is left.
#![tactic(auto)]

mod first;
mod laws;
mod problems;
mod sets;
mod walks;

pub use first::{Tried, first_walk};
pub use laws::{
    agenda_gives_same_walks, best_is_one, chosen_are_picked, empty_dependency_refuses,
    first_is_best, first_walk_is_one, full_meets, members_stand_once, no_walk_extends_full,
    waiting_has_member, walks_are_found, walks_are_ordered, walks_go_on,
};
use olm_base::Many;
pub use problems::Problem;
pub use sets::{VarSet, is_met};
use std::marker::Model;
pub use walks::{Walk, mandatory_variables, set_of};

/// The most variables of a problem, the most constraints of one variable, and the most members of one constraint.
pub const VAR_LIMIT: usize = 200_000;

// The limit's value, as a fact that the check proves.
const _: () = prove!(VAR_LIMIT == 200_000);

/// A variable, by its number.
#[derive(Clone, Copy, Debug, PartialEq, Eq)]
pub struct VarId(pub u32);

impl Model for VarId {
    ghost use Rattle.std.specs.Prelude.{ℕ};

    ghost Value = { ℕ };

    ghost view = { λ v. v.0 };

    ghost inverse = { λ n. record { 0 = n } };
}

/// A literal: the variable is in, or it is out.
#[derive(Clone, Copy, Debug, PartialEq, Eq)]
pub struct Lit {
    pub var: VarId,
    pub positive: bool,
}

/// A constraint of a variable.
#[derive(Debug, Drop)]
pub enum Constraint {
    /// The variable is in.
    Mandatory,
    /// The variable is out.
    Prohibited,
    /// Where the variable is in, so is one of these. The order is that of preference.
    Dependency(Many<VarId>),
    /// Not both are in. A variable in conflict with itself is out.
    Conflict(VarId),
    /// No more than `most` of the members are in, whether the variable is or not.
    AtMost { most: u32, members: Many<VarId> },
}
