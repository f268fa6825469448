// The fields of JSON objects.
ghost use Rattle.std.specs.Prelude.{◌≡◌, ◌↔◌, IfOk, Some, map};
ghost use Rattle.serde_json.specs.View.{view};
ghost use Rattle.olm_base.specs.Outcome.{Gives};
ghost use Rattle.olm_base.specs.Fields as spec;

use crate::{Many, Memory, Name, NameFault, Text, is_outside_name};
use serde_json::Value;
use std::alloc::Global;
use thiserror::Error;

/// What is wrong with a field of a JSON object.
#[derive(Clone, Copy, Debug, PartialEq, Eq, Error)]
pub enum FieldKind {
    /// A required field is absent, or `null`.
    #[error("missing")]
    Missing,
    /// It has another JSON type, or what should hold it is no object.
    #[error("wrong type")]
    WrongType,
    /// A required text is empty.
    #[error("empty")]
    Empty,
    /// It is no name of at most 253 bytes, or no group.
    #[error("bad name")]
    BadName,
    /// More than one of the fields stands there of which one at most may.
    #[error("one of")]
    OneOf,
    /// It is no padded base64 text.
    #[error("base64")]
    Base64,
    /// It is no integer, or one out of its range.
    #[error("number")]
    Number,
    /// Memory ran out.
    #[error("out of memory")]
    Memory,
}

impl From<NameFault> for FieldKind {
    ghost use Rattle.olm_base.specs.Kinds.{kind_of_name};
    ghost use Rattle.std.specs.Prelude.{◌≡◌};

    ghost from_gives = { λ fault kind. kind ≡ kind_of_name fault };

    fn from(fault: NameFault) -> FieldKind {
        match fault {
            NameFault::Bad => FieldKind::BadName,
            NameFault::Memory => FieldKind::Memory,
        }
    }
}

/// The text at a key of an object, which must be there and not be empty.
pub fn text_field(alloc: Global, value: &Value, key: &str) -> Result<Text, FieldKind>
    ensures { Gives spec.is_free (spec.text_field (view value.now) key.now) result }
{
    if !value.is_object() {
        return Err(FieldKind::WrongType);
    }
    match value.get(key) {
        None | Some(Value::Null) => Err(FieldKind::Missing),
        Some(Value::String(text)) => not_empty(alloc, text.as_str()),
        Some(_) => Err(FieldKind::WrongType),
    }
}

fn not_empty(alloc: Global, text: &str) -> Result<Text, FieldKind>
    ensures { Gives spec.is_free (spec.not_empty text.now) result }
{
    if text.is_empty() {
        return Err(FieldKind::Empty);
    }
    match Text::from_str(alloc, text) {
        Ok(text) => Ok(text),
        Err(Memory) => Err(FieldKind::Memory),
    }
}

/// The name at a key of an object, which must be there. A name that is read has at most 253 bytes.
pub fn name_field(alloc: Global, value: &Value, key: &str) -> Result<Name, FieldKind>
    ensures { Gives spec.is_free (spec.name_field (view value.now) key.now) result }
{
    if !value.is_object() {
        return Err(FieldKind::WrongType);
    }
    match value.get(key) {
        None | Some(Value::Null) => Err(FieldKind::Missing),
        Some(Value::String(text)) => name_of(alloc, text.as_bytes()),
        Some(_) => Err(FieldKind::WrongType),
    }
}

fn name_of(alloc: Global, text: &[u8]) -> Result<Name, FieldKind>
    ensures { Gives spec.is_free (spec.name_of text.now) result }
{
    if !is_outside_name(text) {
        return Err(FieldKind::BadName);
    }
    Ok(Name::new(alloc, text)?)
}

/// The text at a key of an object, None where it is absent, `null` or empty.
pub fn opt_text(alloc: Global, value: &Value, key: &str) -> Result<Option<Text>, FieldKind>
    ensures { Gives spec.is_free (spec.opt_text (view value.now) key.now) result }
{
    if !value.is_object() {
        return Err(FieldKind::WrongType);
    }
    match value.get(key) {
        None | Some(Value::Null) => Ok(None),
        Some(Value::String(text)) => match some_text(alloc, text.as_str()) {
            Ok(found) => Ok(found),
            Err(Memory) => Err(FieldKind::Memory),
        },
        Some(_) => Err(FieldKind::WrongType),
    }
}

fn some_text(alloc: Global, text: &str) -> Result<Option<Text>, Memory>
    ensures { IfOk result (λ found. found ≡ spec.some_text text.now) }
{
    if text.is_empty() {
        return Ok(None);
    }
    Ok(Some(Text::from_str(alloc, text)?))
}

/// Copies of the items of the list at a key of an object, which must be there.
pub fn list_field(alloc: Global, value: &Value, key: &str) -> Result<Many<Value>, FieldKind>
    ensures { Gives spec.is_free (spec.list_field (view value.now) key.now) (spec.list_view result) }
{
    if !value.is_object() {
        return Err(FieldKind::WrongType);
    }
    match value.get(key) {
        None => Err(FieldKind::Missing),
        Some(list) => copy_list(alloc, list),
    }
}

fn copy_list(alloc: Global, value: &Value) -> Result<Many<Value>, FieldKind>
    ensures { Gives spec.is_free (spec.as_list (Some (view value.now))) (spec.list_view result) }
{
    match value {
        Value::Null => Err(FieldKind::Missing),
        Value::Array(items) => match copy_items(alloc, items.as_slice()) {
            Ok(copies) => Ok(copies),
            Err(Memory) => Err(FieldKind::Memory),
        },
        _ => Err(FieldKind::WrongType),
    }
}

fn copy_items(alloc: Global, items: &[Value]) -> Result<Many<Value>, Memory>
    ensures { IfOk result (λ copies. map view copies ≡ map view items.now) }
{
    let mut copies = Vec::new(alloc);
    for item in items {
        copies.push(item.clone()?)?;
    }
    Ok(Many::from_vec(copies))
}
