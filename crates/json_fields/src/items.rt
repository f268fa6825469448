// Lists, item by item.
ghost use Rattle.std.specs.Prelude.{◌≡◌, map, Some, List, Result};
ghost use Rattle.serde_json.specs.Data.{Data};
ghost use Rattle.serde_json.specs.View.{view};
ghost use Rattle.olm_base.specs.Outcome.{Gives};
ghost use Rattle.olm_base.specs.Fields.{field, as_list};
ghost use Rattle.json_fields.specs.declared.fault.Fault.{Fault};
ghost use Rattle.json_fields.specs.Faults.{is_free};
ghost use Rattle.json_fields.specs.Values as spec;

use crate::fault::{Fault, below_item, below_key};
use crate::values::{bytes_item, name_item};
use olm_base::{Bytes, FieldKind, Many, Name};
use serde_json::Value;
use std::alloc::Global;

/// The items of a value that must be a list, lent.
fn lend_items(value: &Value) -> Result<&[Value], FieldKind>
    ensures { spec.lent_list result ≡ as_list (Some (view value.now)) }
{
    match value {
        Value::Null => Err(FieldKind::Missing),
        Value::Array(items) => Ok(items.as_slice()),
        _ => Err(FieldKind::WrongType),
    }
}

/// The items of the list at a key, which must be there, lent.
pub fn lend_list<'v>(value: &'v Value, key: &str) -> Result<&'v [Value], FieldKind>
    ensures { spec.lent_list result ≡ field as_list (view value.now) key.now }
{
    if !value.is_object() {
        return Err(FieldKind::WrongType);
    }
    match value.get(key) {
        None => Err(FieldKind::Missing),
        Some(list) => lend_items(list),
    }
}

/// The items of the list at a key, lent; none where it is absent or `null`.
pub fn lend_opt_list<'v>(value: &'v Value, key: &str) -> Result<&'v [Value], FieldKind>
    ensures { spec.lent_list result ≡ field spec.as_opt_list (view value.now) key.now }
{
    if !value.is_object() {
        return Err(FieldKind::WrongType);
    }
    match value.get(key) {
        None | Some(Value::Null) => Ok(&[]),
        Some(list) => lend_items(list),
    }
}

/// How each item of a list is read, and what it gives. Readers are types without values.
pub trait Reader {
    type Out: Drop;

    ghost reading: { Data → Result Self.Out Fault };

    fn read(alloc: Global, value: &Value) -> Result<Self::Out, Fault>
        ensures { Gives is_free (reading (view value.now)) result };
}

/// What all items give, in their order, or the first fault.
pub fn read_items<R: Reader>(alloc: Global, items: &[Value]) -> Result<Many<R::Out>, Fault>
    ensures { Gives is_free (spec.each R.reading (map view items.now)) result }
{
    let mut found = Vec::new(alloc);
    for (index, item) in items.iter().enumerate() {
        match below_item(alloc, R::read(alloc, item), index) {
            Ok(value) => match found.push(value) {
                Ok(()) => {}
                Err(_) => return Err(Fault::here(alloc, FieldKind::Memory)),
            },
            Err(fault) => return Err(fault),
        }
    }
    Ok(Many::from_vec(found))
}

/// The list at a key, which must be there.
pub fn list_at<R: Reader>(alloc: Global, value: &Value, key: &str) -> Result<Many<R::Out>, Fault>
    ensures { Gives is_free (spec.list_at R.reading key.now (view value.now)) result }
{
    match lend_list(value, key) {
        Ok(items) => below_key(alloc, read_items::<R>(alloc, items), key),
        Err(kind) => Err(Fault::here(alloc, kind).below_key(alloc, key)),
    }
}

/// The list at a key; the empty one where it is absent or `null`.
pub fn opt_list_at<R: Reader>(
    alloc: Global,
    value: &Value,
    key: &str,
) -> Result<Many<R::Out>, Fault>
    ensures { Gives is_free (spec.opt_list_at R.reading key.now (view value.now)) result }
{
    match lend_opt_list(value, key) {
        Ok(items) => below_key(alloc, read_items::<R>(alloc, items), key),
        Err(kind) => Err(Fault::here(alloc, kind).below_key(alloc, key)),
    }
}

/// The reader of names.
pub struct Names;

impl Reader for Names {
    type Out = Name;

    ghost use Rattle.json_fields.specs.Values.{name_item};

    ghost reading = { name_item };

    fn read(alloc: Global, value: &Value) -> Result<Name, Fault> {
        name_item(alloc, value)
    }
}

/// The reader of texts that encode bytes.
pub struct Bodies;

impl Reader for Bodies {
    type Out = Bytes;

    ghost use Rattle.json_fields.specs.Values.{bytes_item};

    ghost reading = { bytes_item };

    fn read(alloc: Global, value: &Value) -> Result<Bytes, Fault> {
        bytes_item(alloc, value)
    }
}
