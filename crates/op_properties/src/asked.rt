// What a bundle's properties ask for.
ghost use Rattle.std.specs.Prelude.{◌≡◌, ◌<◌, Some, IfOk, false, true, length, map, slice_get};
ghost use Rattle.std.specs.List.{list_any};
ghost use Rattle.std.specs.Option.{option_and_then, option_map};
ghost use Rattle.fbc_types.specs.Texts.{has_bad_range, is_bad_property, is_range};
ghost use Rattle.op_properties.specs.Asked as spec;

use crate::Requirement;
use crate::offer::copy_kind;
use fbc_types::{CheckedCatalog, Property, RawConstraint, bundles_are_read};
use olm_base::{Many, Memory, Name, Text};
use std::alloc::Global;
use version_ranges::{Range, RangeFault};

fn read_range(alloc: Global, text: &Text) -> Result<Range, Memory>
    requires { is_range text.now ≡ true }
    ensures { IfOk result (λ range. spec.range_of text.now ≡ Some range) }
{
    match Range::parse(alloc, text.as_str()) {
        Ok(range) => Ok(range),
        Err(fault) => {
            if fault == RangeFault::Memory {
                return Err(Memory);
            }
            unreachable!()
        }
    }
}

fn package_in(alloc: Global, name: &Name, range: &Text) -> Result<Requirement, Memory>
    requires { is_range range.now ≡ true }
    ensures { IfOk result (λ requirement. spec.package_in name.now range.now ≡ Some requirement) }
{
    Ok(Requirement::Package {
        name: name.clone()?,
        range: read_range(alloc, range)?,
    })
}

#[cycle(asked)]
fn read_members(alloc: Global, constraints: &[RawConstraint]) -> Result<Many<Requirement>, Memory>
    requires { list_any has_bad_range constraints.now ≡ false }
    ensures { IfOk result (λ members. spec.each_there (map spec.requirement_of constraints.now) ≡ Some members) }
{
    let mut members = Many::new(alloc);
    'constraints: for constraint in constraints {
        members.push(read_constraint(alloc, constraint)?)?;
    }
    Ok(members)
}

#[cycle(asked)]
#[tactic(auto, using(crate::proofs::Written::writes_package, crate::proofs::Written::writes_kind, crate::proofs::Written::writes_all, crate::proofs::Written::writes_any, crate::proofs::Written::writes_not, crate::proofs::Written::writes_cel, crate::proofs::Written::writes_unknown))]
fn read_constraint(alloc: Global, constraint: &RawConstraint) -> Result<Requirement, Memory>
    requires { has_bad_range constraint.now ≡ false }
    ensures { IfOk result (λ requirement. spec.requirement_of constraint.now ≡ Some requirement) }
{
    match constraint {
        RawConstraint::Package { name, range } => package_in(alloc, name, range),
        RawConstraint::Kind(kind) => Ok(Requirement::Kind(copy_kind(kind)?)),
        RawConstraint::All(members) => {
            Ok(Requirement::All(read_members(alloc, members.as_slice())?))
        }
        RawConstraint::Any(members) => {
            Ok(Requirement::Any(read_members(alloc, members.as_slice())?))
        }
        RawConstraint::Not(members) => {
            Ok(Requirement::Not(read_members(alloc, members.as_slice())?))
        }
        RawConstraint::Cel { .. } | RawConstraint::Unknown => Ok(Requirement::Unsupported),
    }
}

#[tactic(auto, using(crate::proofs::Written::writes_package, crate::proofs::Written::writes_kind))]
fn read_property(alloc: Global, property: &Property) -> Result<Option<Requirement>, Memory>
    requires { is_bad_property property.now ≡ false }
    ensures { IfOk result (λ requirement. option_map spec.requirement_of (spec.asked property.now) ≡ option_map Some requirement) }
{
    match property {
        Property::NeedKind(kind) => Ok(Some(Requirement::Kind(copy_kind(kind)?))),
        Property::NeedPackage { name, range } => Ok(Some(package_in(alloc, name, range)?)),
        Property::Constraint(constraint) => Ok(Some(read_constraint(alloc, constraint)?)),
        Property::Package { .. }
        | Property::Kind(_)
        | Property::Manifest { .. }
        | Property::Other { .. } => Ok(None),
    }
}

fn read_properties(alloc: Global, properties: &[Property]) -> Result<Many<Requirement>, Memory>
    requires { list_any is_bad_property properties.now ≡ false }
    ensures { IfOk result (λ found. spec.requirements_in properties.now ≡ Some found) }
{
    let mut found = Many::new(alloc);
    'properties: for property in properties {
        if let Some(requirement) = read_property(alloc, property)? {
            found.push(requirement)?;
        }
    }
    Ok(found)
}

/// What a bundle of the catalog asks for, by its place in the list of bundles, in the order of its properties.
pub fn requirements(
    alloc: Global,
    catalog: &CheckedCatalog,
    bundle: usize,
) -> Result<Many<Requirement>, Memory>
    requires { bundle < length catalog.now.bundles }
    ensures { IfOk result (λ found. option_and_then spec.requirements_of (slice_get catalog.now.bundles bundle) ≡ Some found) }
{
    bundles_are_read();
    read_properties(
        alloc,
        catalog.catalog().bundles.as_slice()[bundle]
            .properties
            .as_slice(),
    )
}
