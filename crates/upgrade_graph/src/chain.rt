// The chain from a channel's head.
ghost use Rattle.std.specs.Prelude.{◌≡◌, map, not, IfOk};
ghost use Rattle.std.specs.List.{find};
ghost use Rattle.std.specs.Option.{option_and_then, option_copied};
ghost use Rattle.fbc_types.specs.Channels as spec;
ghost use Rattle.fbc_types.specs.Texts.{is_among};
ghost use Rattle.upgrade_graph.specs.Order as order;
ghost use Rattle.upgrade_graph.specs.Tables.{is_in, under};

use crate::tables::{entries_by_name, taken_names};
use fbc_types::Entry;
use olm_base::{Memory, Name};
use std::alloc::Global;
use std::collections::{BTreeMap, BTreeSet};

fn is_among(name: &Name, names: &[Name]) -> bool
    ensures { result ≡ is_among name.now names.now }
{
    names.iter().any(|other| other == name)
}

fn replaces(name: &Name, entry: &Entry) -> bool
    ensures { result ≡ spec.replaces name.now entry.now }
{
    match &entry.replaces {
        Some(replaced) => replaced == name,
        None => false,
    }
}

/// The entry skips the bundle of this name.
pub fn skips(name: &Name, entry: &Entry) -> bool
    ensures { result ≡ spec.skips name.now entry.now }
{
    is_among(name, entry.skips.as_slice())
}

/// The entry replaces or skips the bundle of this name.
pub fn takes_over(name: &Name, entry: &Entry) -> bool
    ensures { result ≡ spec.takes_over name.now entry.now }
{
    replaces(name, entry) || skips(name, entry)
}

fn first_free<'a>(entries: &'a [Entry], taken: &BTreeSet<Name>) -> Option<&'a Entry>
    ensures { option_copied result ≡ find (λ entry. not (is_in taken.now.keys entry.name)) entries.now }
{
    entries.iter().find(|entry| !taken.contains(&entry.name))
}

/// The first entry that no other one replaces or skips.
fn head_of(alloc: Global, entries: &[Entry]) -> Result<Option<&Entry>, Memory>
    ensures { IfOk result (λ head. option_copied head ≡ find (spec.is_head entries.now) entries.now) }
{
    let taken = taken_names(alloc, entries)?;
    Ok(first_free(entries, &taken))
}

/// The entry of a table that this one replaces.
fn replaced_by<'a>(table: &BTreeMap<Name, &'a Entry>, entry: &Entry) -> Option<&'a Entry>
    ensures { option_copied result ≡ option_and_then (under table.now.entries) entry.now.replaces }
{
    match &entry.replaces {
        Some(name) => table.get(name).copied(),
        None => None,
    }
}

/// The chain from the first head, itself included; nothing where there is no head. With n entries that name m others it takes the time of n + m look-ups in tables
/// of names.
pub fn main_chain(alloc: Global, entries: &[Entry]) -> Result<Vec<&Entry>, Memory>
    ensures { IfOk result (λ found. map (λ entry. entry.now) found.items ≡ order.main_chain entries.now) }
{
    let table = entries_by_name(alloc, entries)?;
    let mut found = Vec::new(alloc);
    let mut next = head_of(alloc, entries)?;
    for _step in 0..entries.len() + 1 {
        match next {
            Some(entry) => {
                found.push(entry)?;
                next = replaced_by(&table, entry);
            }
            None => break,
        }
    }
    Ok(found)
}
