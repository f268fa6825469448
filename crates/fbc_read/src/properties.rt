// The properties of bundles.
ghost use Rattle.std.specs.Prelude.{◌≡◌, Ok, map};
ghost use Rattle.serde_json.specs.View.{view};
ghost use Rattle.fbc_types.specs.declared.property.Property.TheVariants as property;
ghost use Rattle.olm_base.specs.Outcome.{Gives};
ghost use Rattle.json_fields.specs.Faults.{is_free, and_then};
ghost use Rattle.json_fields.specs.Values.{each};
ghost use Rattle.fbc_read.specs.Properties as spec;

use crate::constraints::constraint;
use fbc_types::Property;
use json_fields::{
    Fault, Reader, below_item, below_key, bytes_at, check_fields, gvk, lend_present, lend_text_at,
    name_at, text_at,
};
use olm_base::{FieldKind, Memory, Text};
use serde_json::Value;
use std::alloc::Global;

/// The types of properties, by what their value gives.
#[derive(Clone, Copy, Debug, PartialEq, Eq)]
pub enum Label {
    Package,
    Kind,
    NeedKind,
    NeedPackage,
    Manifest,
    Constraint,
    Other,
}

fn label_of(text: &[u8]) -> Label
    ensures { result ≡ spec.label_of text.now }
{
    if text == b"olm.package".as_slice() {
        Label::Package
    } else if text == b"olm.gvk".as_slice() {
        Label::Kind
    } else if text == b"olm.gvk.required".as_slice() {
        Label::NeedKind
    } else if text == b"olm.package.required".as_slice() {
        Label::NeedPackage
    } else if text == b"olm.bundle.object".as_slice() {
        Label::Manifest
    } else if text == b"olm.constraint".as_slice() {
        Label::Constraint
    } else {
        Label::Other
    }
}

fn package_value(alloc: Global, value: &Value) -> Result<Property, Fault>
    ensures { Gives is_free (spec.package_value (view value.now)) result }
{
    check_fields(alloc, value)?;
    let name = name_at(alloc, value, "packageName")?;
    let version = text_at(alloc, value, "version")?;
    Ok(Property::Package { name, version })
}

fn kind_value(alloc: Global, value: &Value) -> Result<Property, Fault>
    ensures { Gives is_free (spec.kind_value (view value.now)) result }
{
    check_fields(alloc, value)?;
    let kind = gvk(alloc, value)?;
    Ok(Property::Kind(kind))
}

fn need_kind_value(alloc: Global, value: &Value) -> Result<Property, Fault>
    ensures { Gives is_free (spec.need_kind_value (view value.now)) result }
{
    check_fields(alloc, value)?;
    let kind = gvk(alloc, value)?;
    Ok(Property::NeedKind(kind))
}

fn need_package_value(alloc: Global, value: &Value) -> Result<Property, Fault>
    ensures { Gives is_free (spec.need_package_value (view value.now)) result }
{
    check_fields(alloc, value)?;
    let name = name_at(alloc, value, "packageName")?;
    let range = text_at(alloc, value, "versionRange")?;
    Ok(Property::NeedPackage { name, range })
}

fn manifest_value(alloc: Global, value: &Value) -> Result<Property, Fault>
    ensures { Gives is_free (spec.manifest_value (view value.now)) result }
{
    check_fields(alloc, value)?;
    let body = bytes_at(alloc, value, "data")?;
    Ok(Property::Manifest { body })
}

fn test_value(alloc: Global, value: &Value) -> Result<Property, Fault>
    ensures { Gives is_free (spec.test_value (view value.now)) result }
{
    let test = constraint(alloc, value)?;
    Ok(Property::Constraint(test))
}

fn other_value(alloc: Global, text: &str) -> Result<Property, Fault>
    ensures { Gives is_free (Ok (property.Other text.now)) result }
{
    match Text::from_str(alloc, text) {
        Ok(label) => Ok(Property::Other { label }),
        Err(Memory) => Err(Fault::here(alloc, FieldKind::Memory)),
    }
}

fn property_value(alloc: Global, text: &str, label: Label, value: &Value) -> Result<Property, Fault>
    ensures { Gives is_free (spec.property_value text.now label (view value.now)) result }
{
    match label {
        Label::Package => package_value(alloc, value),
        Label::Kind => kind_value(alloc, value),
        Label::NeedKind => need_kind_value(alloc, value),
        Label::NeedPackage => need_package_value(alloc, value),
        Label::Manifest => manifest_value(alloc, value),
        Label::Constraint => test_value(alloc, value),
        Label::Other => other_value(alloc, text),
    }
}

/// What a property's value gives under its type, where there is a value.
fn property_at(alloc: Global, text: &str, value: &Value) -> Result<Property, Fault>
    ensures { Gives is_free (spec.property_at text.now (view value.now)) result }
{
    match lend_present(value, "value") {
        Ok(inner) => {
            let label = label_of(text.as_bytes());
            below_key(alloc, property_value(alloc, text, label, inner), "value")
        }
        Err(kind) => Err(Fault::here(alloc, kind).below_key(alloc, "value")),
    }
}

/// The reader of a bundle's properties.
pub struct Properties;

impl Reader for Properties {
    type Out = Property;

    ghost use Rattle.fbc_read.specs.Properties.{bundle_property};

    ghost reading = { bundle_property };

    fn read(alloc: Global, value: &Value) -> Result<Property, Fault> {
        check_fields(alloc, value)?;
        match lend_text_at(alloc, value, "type") {
            Ok(text) => property_at(alloc, text, value),
            Err(fault) => Err(fault),
        }
    }
}

/// Passes a property that has a type and a value.
fn check_property(alloc: Global, value: &Value) -> Result<(), Fault>
    ensures { Gives is_free (and_then (spec.any_property (view value.now)) (λ text. Ok tt)) result }
{
    check_fields(alloc, value)?;
    match lend_text_at(alloc, value, "type") {
        Ok(_) => match lend_present(value, "value") {
            Ok(_) => Ok(()),
            Err(kind) => Err(Fault::here(alloc, kind).below_key(alloc, "value")),
        },
        Err(fault) => Err(fault),
    }
}

/// Passes a list of properties that each have a type and a value.
pub fn check_properties(alloc: Global, items: &[Value]) -> Result<(), Fault>
    ensures { Gives is_free (and_then (each spec.any_property (map view items.now)) (λ texts. Ok tt)) result }
{
    for (index, item) in items.iter().enumerate() {
        match below_item(alloc, check_property(alloc, item), index) {
            Ok(()) => {}
            Err(fault) => return Err(fault),
        }
    }
    Ok(())
}
