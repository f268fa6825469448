// Texts of versions and ranges.
ghost use Rattle.std.specs.Prelude.{◌≡◌, ◌≤◌, IfOk, length};
ghost use Rattle.std.specs.List.{list_any};
ghost use Rattle.fbc_types.specs.Texts as spec;

use fbc_types::{Bundle, Property, RawConstraint};
use olm_base::{Memory, Name, Text};
use semver::{Error, Version};
use std::alloc::{AllocError, Global};
use version_ranges::{Range, RangeFault};

#[tactic(auto, unfolding(version_ranges::specs::Words::version_of))]
fn is_version(alloc: Global, text: &Text) -> Result<bool, Memory>
    ensures { IfOk result (λ good. good ≡ spec.is_version text.now) }
{
    match Version::parse(alloc, text.as_str()) {
        Ok(_) => Ok(true),
        Err(error) => {
            if error == Error::from(AllocError) {
                return Err(Memory);
            }
            Ok(false)
        }
    }
}

/// Whether the text is a range.
pub(crate) fn is_range(alloc: Global, text: &Text) -> Result<bool, Memory>
    ensures { IfOk result (λ good. good ≡ spec.is_range text.now) }
{
    match Range::parse(alloc, text.as_str()) {
        Ok(_) => Ok(true),
        Err(fault) => {
            if fault == RangeFault::Memory {
                return Err(Memory);
            }
            Ok(false)
        }
    }
}

#[cycle(nested)]
fn one_has_bad_range(alloc: Global, constraints: &[RawConstraint]) -> Result<bool, Memory>
    ensures { IfOk result (λ bad. bad ≡ list_any spec.has_bad_range constraints.now) }
{
    'constraints: for constraint in constraints {
        if has_bad_range(alloc, constraint)? {
            return Ok(true);
        }
    }
    Ok(false)
}

#[cycle(nested)]
#[tactic(auto, using(fbc_types::proofs::Nested::bad_package, fbc_types::proofs::Nested::bad_kind, fbc_types::proofs::Nested::bad_all, fbc_types::proofs::Nested::bad_any, fbc_types::proofs::Nested::bad_not, fbc_types::proofs::Nested::bad_cel, fbc_types::proofs::Nested::bad_unknown))]
fn has_bad_range(alloc: Global, constraint: &RawConstraint) -> Result<bool, Memory>
    ensures { IfOk result (λ bad. bad ≡ spec.has_bad_range constraint.now) }
{
    match constraint {
        RawConstraint::Package { name: _, range } => Ok(!is_range(alloc, range)?),
        RawConstraint::Kind(_) => Ok(false),
        RawConstraint::All(members) => one_has_bad_range(alloc, members.as_slice()),
        RawConstraint::Any(members) => one_has_bad_range(alloc, members.as_slice()),
        RawConstraint::Not(members) => one_has_bad_range(alloc, members.as_slice()),
        RawConstraint::Cel { rule: _ } => Ok(false),
        RawConstraint::Unknown => Ok(false),
    }
}

fn is_bad_property(alloc: Global, property: &Property) -> Result<bool, Memory>
    ensures { IfOk result (λ bad. bad ≡ spec.is_bad_property property.now) }
{
    match property {
        Property::Package { name: _, version } => Ok(!is_version(alloc, version)?),
        Property::Kind(_) => Ok(false),
        Property::NeedKind(_) => Ok(false),
        Property::NeedPackage { name: _, range } => Ok(!is_range(alloc, range)?),
        Property::Constraint(constraint) => has_bad_range(alloc, constraint),
        Property::Manifest { body: _ } => Ok(false),
        Property::Other { label: _ } => Ok(false),
    }
}

/// Whether some property names a version or a range that is none.
pub(crate) fn has_bad_property(alloc: Global, properties: &[Property]) -> Result<bool, Memory>
    ensures { IfOk result (λ bad. bad ≡ list_any spec.is_bad_property properties.now) }
{
    'properties: for property in properties {
        if is_bad_property(alloc, property)? {
            return Ok(true);
        }
    }
    Ok(false)
}

/// How many versions the property gives for this package.
fn count_versions(owner: &Name, property: &Property) -> usize
    ensures count { result ≡ length (spec.versions_for owner.now property.now) }
    ensures one { result ≤ 1 }
{
    match property {
        Property::Package { name, version: _ } => { if name == owner { 1 } else { 0 } }
        Property::Kind(_) => 0,
        Property::NeedKind(_) => 0,
        Property::NeedPackage { name: _, range: _ } => 0,
        Property::Constraint(_) => 0,
        Property::Manifest { body: _ } => 0,
        Property::Other { label: _ } => 0,
    }
}

/// How many versions the bundle gives for its own package.
pub(crate) fn count_own_versions(bundle: &Bundle) -> usize
    ensures { result ≡ length (spec.own_versions bundle.now) }
{
    let mut count = 0;
    'properties: for property in bundle.properties.as_slice() {
        count += count_versions(&bundle.package, property);
    }
    count
}
