// What a bundle asks for.

use olm_base::{Gvk, Many, Name};
use version_ranges::Range;

/// A test of one offer.
#[derive(Debug, Drop)]
pub enum Requirement {
    /// It is of this package, at a version in this range.
    Package { name: Name, range: Range },
    /// It provides this kind.
    Kind(Gvk),
    /// It passes each of these. An empty list is passed.
    All(Many<Requirement>),
    /// It passes one of these. An empty list is not passed.
    Any(Many<Requirement>),
    /// It passes none of these. An empty list is passed.
    Not(Many<Requirement>),
    /// Nothing passes: the catalog asks for something that this program can't test.
    Unsupported,
}
