//! Sets of names, and of the names that belong to an owner, as bundles and channels belong to a package.
//!
//! A set borrows its names, and asks for one in the time of a search in a tree. What a set has is said of every name,
//! by `has` and `has_owned` in `specs/Sets.antt`.
#![tactic(auto)]

mod names;
mod owned;

pub use names::NameSet;
pub use owned::OwnedNames;
