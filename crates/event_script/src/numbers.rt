// Integers as fields of objects.
ghost use Rattle.std.specs.Prelude.{◌≡◌};
ghost use Rattle.serde_json.specs.View.{view, number_view};
ghost use Rattle.olm_base.specs.Outcome.{Gives};
ghost use Rattle.olm_base.specs.Fields.{field};
ghost use Rattle.json_fields.specs.Faults.{is_free};
ghost use Rattle.event_script.specs.Numbers as spec;

use crate::paths::at;
use json_fields::Fault;
use olm_base::FieldKind;
use serde_json::{Number, Value};
use std::alloc::Global;

fn signed_of(number: &Number) -> Result<i64, FieldKind>
    ensures { result ≡ spec.signed_of (number_view number.now) }
{
    match number.as_i64() {
        Some(found) => Ok(found),
        None => Err(FieldKind::Number),
    }
}

fn count_of(number: &Number, least: u32, greatest: u32) -> Result<u32, FieldKind>
    ensures { result ≡ spec.count_of least greatest (number_view number.now) }
{
    match number.as_u64() {
        Some(found) => {
            if u64::from(least) <= found && found <= u64::from(greatest) {
                Ok(found as u32)
            } else {
                Err(FieldKind::Number)
            }
        }
        None => Err(FieldKind::Number),
    }
}

fn wide_count_of(number: &Number, least: u64, greatest: u64) -> Result<u64, FieldKind>
    ensures { result ≡ spec.count_of least greatest (number_view number.now) }
{
    match number.as_u64() {
        Some(found) => {
            if least <= found && found <= greatest {
                Ok(found)
            } else {
                Err(FieldKind::Number)
            }
        }
        None => Err(FieldKind::Number),
    }
}

fn opt_signed(value: &Value, key: &str) -> Result<Option<i64>, FieldKind>
    ensures { result ≡ field spec.as_opt_signed (view value.now) key.now }
{
    if !value.is_object() {
        return Err(FieldKind::WrongType);
    }
    match value.get(key) {
        None | Some(Value::Null) => Ok(None),
        Some(Value::Number(number)) => match signed_of(number) {
            Ok(found) => Ok(Some(found)),
            Err(kind) => Err(kind),
        },
        Some(_) => Err(FieldKind::WrongType),
    }
}

fn opt_count(value: &Value, key: &str, least: u32, greatest: u32) -> Result<Option<u32>, FieldKind>
    ensures { result ≡ field (spec.as_opt_count least greatest) (view value.now) key.now }
{
    if !value.is_object() {
        return Err(FieldKind::WrongType);
    }
    match value.get(key) {
        None | Some(Value::Null) => Ok(None),
        Some(Value::Number(number)) => match count_of(number, least, greatest) {
            Ok(found) => Ok(Some(found)),
            Err(kind) => Err(kind),
        },
        Some(_) => Err(FieldKind::WrongType),
    }
}

fn count(value: &Value, key: &str, least: u32, greatest: u32) -> Result<u32, FieldKind>
    ensures { result ≡ field (spec.as_count least greatest) (view value.now) key.now }
{
    if !value.is_object() {
        return Err(FieldKind::WrongType);
    }
    match value.get(key) {
        None | Some(Value::Null) => Err(FieldKind::Missing),
        Some(Value::Number(number)) => count_of(number, least, greatest),
        Some(_) => Err(FieldKind::WrongType),
    }
}

fn wide_count(value: &Value, key: &str, least: u64, greatest: u64) -> Result<u64, FieldKind>
    ensures { result ≡ field (spec.as_count least greatest) (view value.now) key.now }
{
    if !value.is_object() {
        return Err(FieldKind::WrongType);
    }
    match value.get(key) {
        None | Some(Value::Null) => Err(FieldKind::Missing),
        Some(Value::Number(number)) => wide_count_of(number, least, greatest),
        Some(_) => Err(FieldKind::WrongType),
    }
}

/// The integer at a key, of 64 bits with a sign; None where it is absent or `null`.
pub fn opt_signed_at(alloc: Global, value: &Value, key: &str) -> Result<Option<i64>, Fault>
    ensures { Gives is_free (spec.opt_signed_at key.now (view value.now)) result }
{
    at(alloc, opt_signed(value, key), key)
}

/// The integer at a key, from `least` to `greatest`; None where it is absent or `null`.
pub fn opt_count_at(
    alloc: Global,
    value: &Value,
    key: &str,
    least: u32,
    greatest: u32,
) -> Result<Option<u32>, Fault>
    ensures { Gives is_free (spec.opt_count_at least greatest key.now (view value.now)) result }
{
    at(alloc, opt_count(value, key, least, greatest), key)
}

/// The integer at a key, from `least` to `greatest`, which must be there.
pub fn count_at(
    alloc: Global,
    value: &Value,
    key: &str,
    least: u32,
    greatest: u32,
) -> Result<u32, Fault>
    ensures { Gives is_free (spec.count_at least greatest key.now (view value.now)) result }
{
    at(alloc, count(value, key, least, greatest), key)
}

/// The same of 64 bits.
pub fn wide_count_at(
    alloc: Global,
    value: &Value,
    key: &str,
    least: u64,
    greatest: u64,
) -> Result<u64, Fault>
    ensures { Gives is_free (spec.count_at least greatest key.now (view value.now)) result }
{
    at(alloc, wide_count(value, key, least, greatest), key)
}
