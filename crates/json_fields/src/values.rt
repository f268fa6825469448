// The forms of values that a catalog's fields have.
ghost use Rattle.std.specs.Prelude.{◌≡◌, IfOk, MatchResult, Ok, Err, Some, codes};
ghost use Rattle.serde_json.specs.View.{view};
ghost use Rattle.olm_base.specs.Outcome.{Gives};
ghost use Rattle.olm_base.specs.Fields as field;
ghost use Rattle.olm_base.specs.Fields.{as_text, as_list};
ghost use Rattle.json_fields.specs.Faults.{is_free, below, key_step, here};
ghost use Rattle.json_fields.specs.Values as spec;

use crate::fault::{Fault, below_key, here};
use base64::DecodeAllocError;
use base64::engine::general_purpose::STANDARD;
use olm_base::{
    Bytes, FieldKind, Gvk, Memory, Name, NameFault, Text, is_group, is_outside_name, name_field,
    opt_text, text_field,
};
use serde_json::Value;
use std::alloc::Global;

/// What was read at a key, with the path to it.
fn at<T: Drop>(alloc: Global, found: Result<T, FieldKind>, key: &str) -> Result<T, Fault>
    ensures { Gives is_free (below (key_step key.now) (here found)) result }
{
    below_key(alloc, here(alloc, found), key)
}

/// The text at a key, lent.
fn lend_text<'v>(value: &'v Value, key: &str) -> Result<&'v str, FieldKind>
    ensures { spec.lent_text result ≡ field.field as_text (view value.now) key.now }
{
    if !value.is_object() {
        return Err(FieldKind::WrongType);
    }
    match value.get(key) {
        None | Some(Value::Null) => Err(FieldKind::Missing),
        Some(Value::String(text)) => {
            if text.is_empty() {
                Err(FieldKind::Empty)
            } else {
                Ok(text.as_str())
            }
        }
        Some(_) => Err(FieldKind::WrongType),
    }
}

/// The text at a key, lent, with the path where it is none.
pub fn lend_text_at<'v>(alloc: Global, value: &'v Value, key: &str) -> Result<&'v str, Fault>
    ensures { Gives is_free (spec.text_at key.now (view value.now)) (spec.lent_text result) }
{
    match lend_text(value, key) {
        Ok(text) => Ok(text),
        Err(kind) => Err(Fault::here(alloc, kind).below_key(alloc, key)),
    }
}

/// Whether a value may have fields: it must be an object.
fn check_object(value: &Value) -> Result<(), FieldKind>
    ensures { MatchResult result (λ _. spec.as_fields (Some (view value.now)) ≡ Ok (view value.now)) (λ kind. spec.as_fields (Some (view value.now)) ≡ Err kind) }
{
    match value {
        Value::Null => Err(FieldKind::Missing),
        Value::Object(_) => Ok(()),
        _ => Err(FieldKind::WrongType),
    }
}

/// Passes an object, whose fields may then be read.
pub fn check_fields(alloc: Global, value: &Value) -> Result<(), Fault>
    ensures { MatchResult result (λ _. spec.fields_of (view value.now) ≡ Ok (view value.now)) (λ fault. spec.fields_of (view value.now) ≡ Err fault) }
{
    match check_object(value) {
        Ok(()) => Ok(()),
        Err(kind) => Err(Fault::here(alloc, kind)),
    }
}

/// The object at a key, lent.
pub fn lend_fields<'v>(value: &'v Value, key: &str) -> Result<&'v Value, FieldKind>
    ensures { spec.lent_value result ≡ field.field spec.as_fields (view value.now) key.now }
{
    if !value.is_object() {
        return Err(FieldKind::WrongType);
    }
    match value.get(key) {
        None => Err(FieldKind::Missing),
        Some(found) => match check_object(found) {
            Ok(()) => Ok(found),
            Err(kind) => Err(kind),
        },
    }
}

/// The value at a key, of whatever type, lent.
pub fn lend_present<'v>(value: &'v Value, key: &str) -> Result<&'v Value, FieldKind>
    ensures { spec.lent_value result ≡ field.field spec.as_present (view value.now) key.now }
{
    if !value.is_object() {
        return Err(FieldKind::WrongType);
    }
    match value.get(key) {
        None | Some(Value::Null) => Err(FieldKind::Missing),
        Some(found) => Ok(found),
    }
}

/// The text at a key, which must be there and not be empty.
pub fn text_at(alloc: Global, value: &Value, key: &str) -> Result<Text, Fault>
    ensures { Gives is_free (spec.text_at key.now (view value.now)) result }
{
    at(alloc, text_field(alloc, value, key), key)
}

/// The text at a key; None where it is absent, `null` or empty.
pub fn opt_text_at(alloc: Global, value: &Value, key: &str) -> Result<Option<Text>, Fault>
    ensures { Gives is_free (spec.opt_text_at key.now (view value.now)) result }
{
    at(alloc, opt_text(alloc, value, key), key)
}

/// The name at a key, which must be there.
pub fn name_at(alloc: Global, value: &Value, key: &str) -> Result<Name, Fault>
    ensures { Gives is_free (spec.name_at key.now (view value.now)) result }
{
    at(alloc, name_field(alloc, value, key), key)
}

fn opt_name_of(alloc: Global, text: &[u8]) -> Result<Option<Name>, FieldKind>
    ensures { Gives field.is_free (spec.opt_name_of text.now) result }
{
    if text.is_empty() {
        return Ok(None);
    }
    match name_of(alloc, text) {
        Ok(name) => Ok(Some(name)),
        Err(kind) => Err(kind),
    }
}

fn name_of(alloc: Global, text: &[u8]) -> Result<Name, FieldKind>
    ensures { Gives field.is_free (field.name_of text.now) result }
{
    if !is_outside_name(text) {
        return Err(FieldKind::BadName);
    }
    Ok(Name::new(alloc, text)?)
}

fn opt_name(alloc: Global, value: &Value, key: &str) -> Result<Option<Name>, FieldKind>
    ensures { Gives field.is_free (field.field spec.as_opt_name (view value.now) key.now) result }
{
    if !value.is_object() {
        return Err(FieldKind::WrongType);
    }
    match value.get(key) {
        None | Some(Value::Null) => Ok(None),
        Some(Value::String(text)) => opt_name_of(alloc, text.as_bytes()),
        Some(_) => Err(FieldKind::WrongType),
    }
}

/// The name at a key; None where it is absent, `null` or the empty text.
pub fn opt_name_at(alloc: Global, value: &Value, key: &str) -> Result<Option<Name>, Fault>
    ensures { Gives is_free (spec.opt_name_at key.now (view value.now)) result }
{
    at(alloc, opt_name(alloc, value, key), key)
}

fn group_of(alloc: Global, text: &str) -> Result<Text, FieldKind>
    ensures { Gives field.is_free (spec.group_of text.now) result }
{
    if !is_group(text.as_bytes()) {
        return Err(FieldKind::BadName);
    }
    match Text::from_str(alloc, text) {
        Ok(text) => Ok(text),
        Err(Memory) => Err(FieldKind::Memory),
    }
}

fn group(alloc: Global, value: &Value, key: &str) -> Result<Text, FieldKind>
    ensures { Gives field.is_free (field.field spec.as_group (view value.now) key.now) result }
{
    if !value.is_object() {
        return Err(FieldKind::WrongType);
    }
    match value.get(key) {
        None | Some(Value::Null) => Err(FieldKind::Missing),
        Some(Value::String(text)) => group_of(alloc, text.as_str()),
        Some(_) => Err(FieldKind::WrongType),
    }
}

/// The group at a key, which must be there and may be empty.
pub fn group_at(alloc: Global, value: &Value, key: &str) -> Result<Text, Fault>
    ensures { Gives is_free (spec.group_at key.now (view value.now)) result }
{
    at(alloc, group(alloc, value, key), key)
}

fn bytes_of(alloc: Global, text: &[u8]) -> Result<Bytes, FieldKind>
    ensures { Gives field.is_free (spec.bytes_of text.now) result }
{
    match STANDARD.decode(alloc, text) {
        Ok(bytes) => Ok(Bytes::from_vec(bytes)),
        Err(DecodeAllocError::DecodeError(_)) => Err(FieldKind::Base64),
        Err(DecodeAllocError::OutOfMemory) => Err(FieldKind::Memory),
    }
}

fn bytes(alloc: Global, value: &Value, key: &str) -> Result<Bytes, FieldKind>
    ensures { Gives field.is_free (field.field spec.as_bytes (view value.now) key.now) result }
{
    if !value.is_object() {
        return Err(FieldKind::WrongType);
    }
    match value.get(key) {
        None => Err(FieldKind::Missing),
        Some(value) => bytes_value(alloc, value),
    }
}

fn bytes_value(alloc: Global, value: &Value) -> Result<Bytes, FieldKind>
    ensures { Gives field.is_free (spec.as_bytes (Some (view value.now))) result }
{
    match value {
        Value::Null => Err(FieldKind::Missing),
        Value::String(text) => {
            if text.is_empty() {
                Err(FieldKind::Empty)
            } else {
                bytes_of(alloc, text.as_bytes())
            }
        }
        _ => Err(FieldKind::WrongType),
    }
}

/// The bytes that the text at a key encodes, in base64 with padding.
pub fn bytes_at(alloc: Global, value: &Value, key: &str) -> Result<Bytes, Fault>
    ensures { Gives is_free (spec.bytes_at key.now (view value.now)) result }
{
    at(alloc, bytes(alloc, value, key), key)
}

/// The bytes that a list's item encodes.
pub fn bytes_item(alloc: Global, value: &Value) -> Result<Bytes, Fault>
    ensures { Gives is_free (spec.bytes_item (view value.now)) result }
{
    here(alloc, bytes_value(alloc, value))
}

fn name_value(alloc: Global, value: &Value) -> Result<Name, FieldKind>
    ensures { Gives field.is_free (field.as_name (Some (view value.now))) result }
{
    match value {
        Value::Null => Err(FieldKind::Missing),
        Value::String(text) => name_of(alloc, text.as_bytes()),
        _ => Err(FieldKind::WrongType),
    }
}

/// The name that a list's item is.
pub fn name_item(alloc: Global, value: &Value) -> Result<Name, Fault>
    ensures { Gives is_free (spec.name_item (view value.now)) result }
{
    here(alloc, name_value(alloc, value))
}

/// The kind whose group, version and name an object has.
pub fn gvk(alloc: Global, value: &Value) -> Result<Gvk, Fault>
    ensures { Gives is_free (spec.gvk (view value.now)) result }
{
    let group = group_at(alloc, value, "group")?;
    let version = name_at(alloc, value, "version")?;
    let kind = name_at(alloc, value, "kind")?;
    Ok(Gvk {
        group,
        version,
        kind,
    })
}
