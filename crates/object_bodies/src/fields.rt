// The forms of fields that objects have beside those of any JSON object.
ghost use Rattle.std.specs.Prelude.{◌≡◌, IfOk, Some, is_some};
ghost use Rattle.serde_json.specs.Data.{object, no_members};
ghost use Rattle.serde_json.specs.View.{view};
ghost use Rattle.olm_base.specs.Outcome.{Gives};
ghost use Rattle.olm_base.specs.Fields as field;
ghost use Rattle.json_fields.specs.Faults.{is_free};
ghost use Rattle.json_fields.specs.Values.{at};
ghost use Rattle.version_ranges.specs.Words.{version_of};
ghost use Rattle.cluster_objects.specs.Keys.{same_text};
ghost use Rattle.object_bodies.specs.Fields as spec;

use json_fields::{Fault, Reader, below_key, lend_fields};
use olm_base::{FieldKind, Memory, Text, opt_text};
use semver::{Error, Version};
use serde_json::{Map, Value};
use std::alloc::{AllocError, Global};

/// What the object at a key gives, which must be there.
pub fn fields_at<R: Reader>(alloc: Global, value: &Value, key: &str) -> Result<R::Out, Fault>
    ensures { Gives is_free (spec.fields_at R.reading key.now (view value.now)) result }
{
    match lend_fields(value, key) {
        Ok(found) => below_key(alloc, R::read(alloc, found), key),
        Err(kind) => Err(Fault::here(alloc, kind).below_key(alloc, key)),
    }
}

/// An object without fields.
fn no_fields(alloc: Global) -> Value
    ensures { view result ≡ object no_members }
{
    Value::Object(Map::new(alloc))
}

fn lend_opt_value(value: &Value) -> Result<Option<&Value>, FieldKind>
    ensures { spec.lent_fields result ≡ spec.as_opt_fields (Some (view value.now)) }
{
    match value {
        Value::Null => Ok(None),
        Value::Object(_) => Ok(Some(value)),
        _ => Err(FieldKind::WrongType),
    }
}

/// The object at a key, lent; None where it is absent or `null`.
fn lend_opt_fields<'v>(value: &'v Value, key: &str) -> Result<Option<&'v Value>, FieldKind>
    ensures { spec.lent_fields result ≡ field.field spec.as_opt_fields (view value.now) key.now }
{
    if !value.is_object() {
        return Err(FieldKind::WrongType);
    }
    match value.get(key) {
        None => Ok(None),
        Some(found) => lend_opt_value(found),
    }
}

/// What the object at a key gives; where it is absent, what one without fields gives.
pub fn opt_fields_at<R: Reader>(alloc: Global, value: &Value, key: &str) -> Result<R::Out, Fault>
    ensures { Gives is_free (spec.opt_fields_at R.reading key.now (view value.now)) result }
{
    match lend_opt_fields(value, key) {
        Ok(Some(found)) => below_key(alloc, R::read(alloc, found), key),
        Ok(None) => below_key(alloc, R::read(alloc, &no_fields(alloc)), key),
        Err(kind) => Err(Fault::here(alloc, kind).below_key(alloc, key)),
    }
}

/// Whether a text is this word.
pub fn is_word(text: &[u8], word: &[u8]) -> bool
    ensures { result ≡ same_text text.now word.now }
{
    text == word
}

fn approval_of(word: Option<Text>) -> Result<bool, FieldKind>
    ensures { result ≡ spec.approval_of word }
{
    match word {
        None => Ok(false),
        Some(word) => {
            if is_word(word.as_slice(), b"Manual") {
                Ok(true)
            } else if is_word(word.as_slice(), b"Automatic") {
                Ok(false)
            } else {
                Err(FieldKind::WrongType)
            }
        }
    }
}

fn approval(alloc: Global, value: &Value, key: &str) -> Result<bool, FieldKind>
    ensures { Gives field.is_free (field.field spec.as_approval (view value.now) key.now) result }
{
    match opt_text(alloc, value, key) {
        Ok(word) => approval_of(word),
        Err(kind) => Err(kind),
    }
}

/// Whether a plan for a subscription waits for an approval.
pub fn approval_at(alloc: Global, value: &Value, key: &str) -> Result<bool, Fault>
    ensures { Gives is_free (at spec.as_approval key.now (view value.now)) result }
{
    match approval(alloc, value, key) {
        Ok(manual) => Ok(manual),
        Err(kind) => Err(Fault::here(alloc, kind).below_key(alloc, key)),
    }
}

fn forward_of(word: Option<Text>) -> Result<bool, FieldKind>
    ensures { result ≡ spec.forward_of word }
{
    match word {
        None => Ok(false),
        Some(word) => {
            if is_word(word.as_slice(), b"TechPreviewUnsafeFailForward") {
                Ok(true)
            } else if is_word(word.as_slice(), b"Default") {
                Ok(false)
            } else {
                Err(FieldKind::WrongType)
            }
        }
    }
}

fn forward(alloc: Global, value: &Value, key: &str) -> Result<bool, FieldKind>
    ensures { Gives field.is_free (field.field spec.as_forward (view value.now) key.now) result }
{
    match opt_text(alloc, value, key) {
        Ok(word) => forward_of(word),
        Err(kind) => Err(kind),
    }
}

/// Whether upgrades may leave a version that failed.
pub fn forward_at(alloc: Global, value: &Value, key: &str) -> Result<bool, Fault>
    ensures { Gives is_free (at spec.as_forward key.now (view value.now)) result }
{
    match forward(alloc, value, key) {
        Ok(forward) => Ok(forward),
        Err(kind) => Err(Fault::here(alloc, kind).below_key(alloc, key)),
    }
}

fn absent_value(value: &Value) -> Result<(), FieldKind>
    ensures { result ≡ spec.as_absent (Some (view value.now)) }
{
    match value {
        Value::Null => Ok(()),
        _ => Err(FieldKind::WrongType),
    }
}

fn absent(value: &Value, key: &str) -> Result<(), FieldKind>
    ensures { result ≡ field.field spec.as_absent (view value.now) key.now }
{
    if !value.is_object() {
        return Err(FieldKind::WrongType);
    }
    match value.get(key) {
        None => Ok(()),
        Some(found) => absent_value(found),
    }
}

/// Whether nothing stands at a key.
pub fn check_absent(alloc: Global, value: &Value, key: &str) -> Result<(), Fault>
    ensures { Gives is_free (at spec.as_absent key.now (view value.now)) result }
{
    match absent(value, key) {
        Ok(()) => Ok(()),
        Err(kind) => Err(Fault::here(alloc, kind).below_key(alloc, key)),
    }
}

#[tactic(auto, unfolding(version_ranges::specs::Words::version_of))]
fn is_version(alloc: Global, text: &str) -> Result<bool, Memory>
    ensures { IfOk result (λ good. good ≡ is_some (version_of text.now)) }
{
    match Version::parse(alloc, text) {
        Ok(_) => Ok(true),
        Err(error) => {
            if error == Error::from(AllocError) {
                return Err(Memory);
            }
            Ok(false)
        }
    }
}

fn no_version(alloc: Global) -> Result<Text, Memory>
    ensures { IfOk result (λ text. text ≡ spec.no_version) }
{
    Text::from_str(alloc, "0.0.0")
}

fn version_text(alloc: Global, text: &str) -> Result<Text, Memory>
    ensures { IfOk result (λ version. version ≡ spec.version_text text.now) }
{
    if is_version(alloc, text)? {
        Text::from_str(alloc, text)
    } else {
        no_version(alloc)
    }
}

/// The version of a CSV, 0.0.0 where it has none.
pub fn version_at(alloc: Global, value: &Value) -> Result<Text, Memory>
    ensures { IfOk result (λ version. version ≡ spec.version_at (view value.now)) }
{
    match value.get("version") {
        Some(Value::String(text)) => version_text(alloc, text.as_str()),
        _ => no_version(alloc),
    }
}
