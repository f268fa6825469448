// Which ways of acting a CSV supports.
ghost use Rattle.std.specs.Prelude.{◌≡◌, ◌&&◌, false, [], IfOk, map};
ghost use Rattle.std.specs.List.{list_all, list_any};
ghost use Rattle.std.specs.Option.{option_and_then, option_map, option_map_or};
ghost use Rattle.serde_json.specs.Find.{as_array, as_str};
ghost use Rattle.serde_json.specs.View.{view};
ghost use Rattle.catalog_stream.specs.Stream.{object_of};
ghost use Rattle.cluster_objects.specs.Keys.{same_text};
ghost use Rattle.olm_base.specs.Fields.{items_list};
ghost use Rattle.operator_groups.specs.Modes as spec;

use crate::groups::Acts;
use olm_base::{Memory, Name};
use serde_json::Value;
use std::alloc::Global;

/// A way of acting that a CSV may support.
#[derive(Clone, Copy, Debug, PartialEq, Eq)]
pub enum Mode {
    /// In its own namespace alone.
    OwnNamespace,
    /// In one other namespace.
    SingleNamespace,
    /// In two or more namespaces.
    MultiNamespace,
    /// In all namespaces.
    AllNamespaces,
}

impl Mode {
    fn word(self) -> &'static str
        ensures { result.now ≡ spec.word self }
    {
        match self {
            Mode::OwnNamespace => "OwnNamespace",
            Mode::SingleNamespace => "SingleNamespace",
            Mode::MultiNamespace => "MultiNamespace",
            Mode::AllNamespaces => "AllNamespaces",
        }
    }
}

// The items of a list; what is no list has none.
fn items_of(list: &Value) -> &[Value]
    ensures { map view result.now ≡ option_map_or items_list (as_array (view list.now)) [] }
{
    match list {
        Value::Array(items) => items.as_slice(),
        _ => &[],
    }
}

fn modes_of(value: &Value) -> &[Value]
    ensures { map view result.now ≡ spec.modes_of (view value.now) }
{
    match value.get("spec") {
        Some(asked) => match asked.get("installModes") {
            Some(modes) => items_of(modes),
            None => &[],
        },
        None => &[],
    }
}

fn is_text(word: &str, found: Option<&Value>) -> bool
    ensures { result ≡ option_map_or (same_text word.now)
        (option_and_then as_str (option_map (λ value. view value.now) found.entry)) false }
{
    match found {
        Some(Value::String(text)) => word == text.as_str(),
        _ => false,
    }
}

fn is_of_mode(mode: Mode, item: &Value) -> bool
    ensures { result ≡ spec.is_of_mode mode (view item.now) }
{
    is_text(mode.word(), item.get("type"))
}

fn says_supported(item: &Value) -> bool
    ensures { result ≡ spec.says_supported (view item.now) }
{
    match item.get("supported") {
        Some(Value::Bool(supported)) => *supported,
        _ => false,
    }
}

fn is_listed(mode: Mode, items: &[Value]) -> bool
    ensures { result ≡ list_any
        (λ item. spec.is_of_mode mode (view item) && spec.says_supported (view item)) items.now }
{
    items
        .iter()
        .any(|item| is_of_mode(mode, item) && says_supported(item))
}

fn lists_mode(mode: Mode, value: &Value) -> bool
    ensures { result ≡ spec.lists_mode mode (view value.now) }
{
    is_listed(mode, modes_of(value))
}

// The JSON object that these bytes are, if they are one.
#[tactic(auto, using(catalog_stream::proofs::Objects::object_of_read, catalog_stream::proofs::Objects::object_of_none))]
fn read_object(alloc: Global, body: &[u8]) -> Result<Option<Value>, Memory>
    ensures { IfOk result (λ value. option_map view value ≡ object_of body.now) }
{
    match Value::from_slice(alloc, body) {
        Ok(value) => {
            if value.is_object() {
                Ok(Some(value))
            } else {
                Ok(None)
            }
        }
        Err(fault) => {
            if fault.is_memory() {
                Err(Memory)
            } else {
                Ok(None)
            }
        }
    }
}

fn supports_mode(alloc: Global, body: &[u8], mode: Mode) -> Result<bool, Memory>
    ensures { IfOk result (λ supported. supported ≡ spec.supports_mode body.now mode) }
{
    match read_object(alloc, body)? {
        Some(value) => Ok(lists_mode(mode, &value)),
        None => Ok(false),
    }
}

fn mode_in(own: &Name, target: &Name) -> Mode
    ensures { result ≡ spec.mode_in own.now target.now }
{
    if target == own {
        Mode::OwnNamespace
    } else {
        Mode::SingleNamespace
    }
}

fn are_all(target: &Name, targets: &[Name]) -> bool
    ensures { result ≡ list_all (same_text target.now) targets.now }
{
    targets.iter().all(|other| target == other)
}

fn mode_for(own: &Name, targets: &[Name]) -> Option<Mode>
    ensures { result ≡ spec.mode_for own.now targets.now }
{
    match targets {
        [] => None,
        [target, others @ ..] => {
            if are_all(target, others) {
                Some(mode_in(own, target))
            } else {
                Some(Mode::MultiNamespace)
            }
        }
    }
}

fn supports_in(alloc: Global, body: &[u8], own: &Name, targets: &[Name]) -> Result<bool, Memory>
    ensures { IfOk result (λ supported. supported
        ≡ option_map_or (spec.supports_mode body.now) (spec.mode_for own.now targets.now) false) }
{
    match mode_for(own, targets) {
        Some(mode) => supports_mode(alloc, body, mode),
        None => Ok(false),
    }
}

/// Whether a CSV with this body, in its own namespace, supports that its operators act so.
/// Takes memory in the measure of the body.
pub fn supports(alloc: Global, body: &[u8], own: &Name, acts: &Acts) -> Result<bool, Memory>
    ensures { IfOk result (λ supported. supported ≡ spec.supports body.now own.now acts.now) }
{
    match acts {
        Acts::Ungrouped => Ok(true),
        Acts::Several => Ok(false),
        Acts::In(targets) => supports_in(alloc, body, own, targets.as_slice()),
        Acts::Everywhere => supports_mode(alloc, body, Mode::AllNamespaces),
    }
}
