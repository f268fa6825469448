// What a bundle says of itself and asks for.

use olm_base::{Bytes, Gvk, Many, Name, Text};

/// One property of a bundle.
#[derive(Debug, Drop, PartialEq)]
pub enum Property {
    /// `olm.package`: the bundle is this version of this package.
    Package { name: Name, version: Text },
    /// `olm.gvk`: the bundle provides this kind.
    Kind(Gvk),
    /// `olm.gvk.required`: the bundle needs a provider of this kind.
    NeedKind(Gvk),
    /// `olm.package.required`: the bundle needs this package at a version in this range.
    NeedPackage { name: Name, range: Text },
    /// `olm.constraint`: the bundle needs a bundle that passes this test.
    Constraint(RawConstraint),
    /// `olm.bundle.object`: a manifest of the bundle.
    Manifest { body: Bytes },
    /// A property of another type, which nothing reads.
    Other { label: Text },
}

/// A test of one bundle, as the catalog writes it.
#[derive(Debug, Drop, PartialEq)]
pub enum RawConstraint {
    /// It is of this package, at a version in this range.
    Package { name: Name, range: Text },
    /// It provides this kind.
    Kind(Gvk),
    /// It passes each of these.
    All(Many<RawConstraint>),
    /// It passes one of these.
    Any(Many<RawConstraint>),
    /// It passes none of these.
    Not(Many<RawConstraint>),
    /// A rule in the language CEL.
    Cel { rule: Text },
    /// A constraint of none of these forms.
    Unknown,
}
