// A fault and the path to it.
ghost use Rattle.std.specs.Prelude.{◌≡◌, [], ◌∷◌, ◌++◌, string_bytes, Result, IfOk};
ghost use Rattle.std.specs.Fmt.{decimal};
ghost use Rattle.olm_base.specs.Outcome.{Ends, Gives};
ghost use Rattle.json_fields.specs.Faults as spec;

use olm_base::{FieldKind, Memory, Text};
use std::alloc::{AllocError, Global};

/// What is wrong with a value, and the path to it from the value that was to be read.
#[derive(Debug, Drop)]
pub struct Fault {
    pub path: Text,
    pub kind: FieldKind,
}

fn key_path(alloc: Global, key: &str, path: &str) -> Result<String, AllocError>
    ensures { IfOk result (λ text. string_bytes text ≡ spec.key_step key.now ++ path.now) }
{
    format!(in alloc; ".{key}{path}")
}

fn item_step(alloc: Global, index: usize) -> Result<String, AllocError>
    ensures { IfOk result (λ text. string_bytes text ≡ spec.item_step index) }
{
    format!(in alloc; "[{index}]")
}

fn item_path(alloc: Global, index: usize, path: &str) -> Result<String, AllocError>
    ensures { IfOk result (λ text. string_bytes text ≡ spec.item_step index ++ path.now) }
{
    let step = item_step(alloc, index)?;
    format!(in alloc; "{step}{path}")
}

impl Fault {
    /// A fault of the value itself.
    pub fn here(alloc: Global, kind: FieldKind) -> Fault
        ensures { result ≡ record { path = []; kind = kind } }
    {
        Fault {
            path: Text::from_string(String::new(alloc)),
            kind,
        }
    }

    /// The fault as seen from an object that has the value at this key.
    pub fn below_key(self, alloc: Global, key: &str) -> Fault
        ensures { Ends spec.is_free (spec.below_fault (spec.key_step key.now) self) result }
    {
        match key_path(alloc, key, self.path.as_str()) {
            Ok(path) => Fault {
                path: Text::from_string(path),
                kind: self.kind,
            },
            Err(_) => Fault::here(alloc, FieldKind::Memory),
        }
    }

    /// The fault as seen from a list whose item of this number the value is.
    pub fn below_item(self, alloc: Global, index: usize) -> Fault
        ensures { Ends spec.is_free (spec.below_fault (spec.item_step index) self) result }
    {
        match item_path(alloc, index, self.path.as_str()) {
            Ok(path) => Fault {
                path: Text::from_string(path),
                kind: self.kind,
            },
            Err(_) => Fault::here(alloc, FieldKind::Memory),
        }
    }
}

/// What a part at a key gave, as seen from the object.
pub fn below_key<T: Drop>(alloc: Global, found: Result<T, Fault>, key: &str) -> Result<T, Fault>
    ensures { Gives spec.is_free (spec.below (spec.key_step key.now) found) result }
{
    match found {
        Ok(value) => Ok(value),
        Err(fault) => Err(fault.below_key(alloc, key)),
    }
}

/// What an item gave, as seen from the list.
pub fn below_item<T: Drop>(alloc: Global, found: Result<T, Fault>, index: usize) -> Result<T, Fault>
    ensures { Gives spec.is_free (spec.below (spec.item_step index) found) result }
{
    match found {
        Ok(value) => Ok(value),
        Err(fault) => Err(fault.below_item(alloc, index)),
    }
}

/// A fault of a value itself has the empty path.
pub fn here<T: Drop>(alloc: Global, found: Result<T, FieldKind>) -> Result<T, Fault>
    ensures { result ≡ spec.here found }
{
    match found {
        Ok(value) => Ok(value),
        Err(kind) => Err(Fault::here(alloc, kind)),
    }
}
