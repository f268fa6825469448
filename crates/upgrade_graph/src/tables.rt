// Entries and bundles by their names, and sets of names.
ghost use Rattle.std.specs.Prelude.{◌≡◌, ◌||◌, ◌&&◌, ℕ, List, Some, None, if◌then◌else◌, OnOk, IfOk};
ghost use Rattle.std.specs.List.{list_any};
ghost use Rattle.std.specs.Option.{option_copied, option_or};
ghost use Rattle.fbc_types.specs.Channels as channels;
ghost use Rattle.fbc_types.specs.Rules.{is_bundle_of};
ghost use Rattle.fbc_types.specs.Texts.{is_among, same};
ghost use Rattle.upgrade_graph.specs.Order as order;
ghost use Rattle.upgrade_graph.specs.Tables as spec;

use fbc_types::{Bundle, Entry};
use olm_base::{Memory, Name};
use std::alloc::Global;
use std::collections::{BTreeMap, BTreeSet};

/// Keeps the item under the name, unless one is kept there.
fn add_first<'a, T>(
    table: &mut BTreeMap<Name, &'a T>,
    name: &Name,
    item: &'a T,
) -> Result<(), Memory>
    ensures { OnOk result ((other : List ℕ) → spec.under table.new.entries other ≡ option_or (spec.under table.old.entries other) (if same name.now other then Some item.now else None)) }
{
    if table.contains_key(name) {
        return Ok(());
    }
    table.insert(name.clone()?, item)?;
    Ok(())
}

/// The first entry of each name.
pub(crate) fn entries_by_name(
    alloc: Global,
    entries: &[Entry],
) -> Result<BTreeMap<Name, &Entry>, Memory>
    ensures { IfOk result (λ table. (name : List ℕ) → spec.under table.entries name ≡ channels.entry_named entries.now name) }
{
    let mut table = BTreeMap::new(alloc);
    for entry in entries {
        add_first(&mut table, &entry.name, entry)?;
    }
    Ok(table)
}

/// The first bundle of each name in this package.
pub fn bundles_by_name<'a>(
    alloc: Global,
    bundles: &'a [Bundle],
    owner: &Name,
) -> Result<BTreeMap<Name, &'a Bundle>, Memory>
    ensures { IfOk result (λ table. (name : List ℕ) → spec.under table.entries name ≡ order.bundle_named bundles.now owner.now name) }
{
    let mut table = BTreeMap::new(alloc);
    for bundle in bundles {
        if bundle.package != *owner {
            continue;
        }
        add_first(&mut table, &bundle.name, bundle)?;
    }
    Ok(table)
}

/// Adds a name to a set.
fn add_name(set: &mut BTreeSet<Name>, name: &Name) -> Result<(), Memory>
    ensures { OnOk result ((other : List ℕ) → spec.is_in set.new.keys other ≡ (spec.is_in set.old.keys other || same name.now other)) }
{
    set.insert(name.clone()?)?;
    Ok(())
}

fn add_names(set: &mut BTreeSet<Name>, names: &[Name]) -> Result<(), Memory>
    ensures { OnOk result ((other : List ℕ) → spec.is_in set.new.keys other ≡ (spec.is_in set.old.keys other || is_among other names.now)) }
{
    for name in names {
        add_name(set, name)?;
    }
    Ok(())
}

fn add_replaced(set: &mut BTreeSet<Name>, entry: &Entry) -> Result<(), Memory>
    ensures { OnOk result ((other : List ℕ) → spec.is_in set.new.keys other ≡ (spec.is_in set.old.keys other || channels.replaces other entry.now)) }
{
    match &entry.replaces {
        Some(name) => add_name(set, name),
        None => Ok(()),
    }
}

/// Adds the names that the entry replaces or skips.
fn add_taken(set: &mut BTreeSet<Name>, entry: &Entry) -> Result<(), Memory>
    ensures { OnOk result ((other : List ℕ) → spec.is_in set.new.keys other ≡ (spec.is_in set.old.keys other || channels.takes_over other entry.now)) }
{
    add_replaced(set, entry)?;
    add_names(set, entry.skips.as_slice())?;
    Ok(())
}

/// The names that some entry replaces or skips.
pub(crate) fn taken_names(alloc: Global, entries: &[Entry]) -> Result<BTreeSet<Name>, Memory>
    ensures { IfOk result (λ set. (name : List ℕ) → spec.is_in set.keys name ≡ list_any (channels.takes_over name) entries.now) }
{
    let mut set = BTreeSet::new(alloc);
    for entry in entries {
        add_taken(&mut set, entry)?;
    }
    Ok(set)
}

/// The names of these entries.
pub(crate) fn names_on(alloc: Global, chain: &[&Entry]) -> Result<BTreeSet<Name>, Memory>
    ensures { IfOk result (λ set. (name : List ℕ) → spec.is_in set.keys name ≡ list_any (λ link. same link.now.name name) chain.now) }
{
    let mut set = BTreeSet::new(alloc);
    for link in chain {
        add_name(&mut set, &link.name)?;
    }
    Ok(set)
}
