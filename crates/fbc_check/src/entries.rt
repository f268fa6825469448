// The rules of a channel's entries.
ghost use Rattle.std.specs.Prelude.{◌≡◌, ◌++◌, [], OnOk, IfOk, false, not};
ghost use Rattle.std.specs.List.{flat_map};
ghost use Rattle.std.specs.Option.{option_map_or};
ghost use Rattle.fbc_types.specs.Rules as rules;
ghost use Rattle.fbc_types.specs.Texts.{is_range};
ghost use Rattle.name_tables.specs.Sets.{has_owned};

use crate::notes::note_entry;
use crate::tables::bundle_names;
use crate::texts::is_range;
use fbc_types::{Bundle, Channel, CheckFault, Entry};
use name_tables::{NameSet, OwnedNames};
use olm_base::Memory;
use std::alloc::Global;

fn note_repeated(alloc: Global, faults: &mut Vec<CheckFault>, blob: &Channel) -> Result<(), Memory>
    ensures { OnOk result (faults.new.items ≡ faults.old.items ++ rules.by_earlier (rules.repeated_entry blob.now) [] blob.now.entries) }
{
    let mut earlier = NameSet::new(alloc);
    'entries: for entry in blob.entries.as_slice() {
        let is_new = earlier.add(&entry.name)?;
        note_entry(faults, !is_new, 4, blob, entry)?;
    }
    Ok(())
}

/// Entries whose name an earlier entry of their channel has.
pub(crate) fn repeated_entries(
    alloc: Global,
    faults: &mut Vec<CheckFault>,
    channels: &[Channel],
) -> Result<(), Memory>
    ensures { OnOk result (faults.new.items ≡ faults.old.items ++ flat_map (λ channel. rules.by_earlier (rules.repeated_entry channel) [] channel.entries) channels.now) }
{
    'channels: for blob in channels {
        note_repeated(alloc, faults, blob)?;
    }
    Ok(())
}

fn note_without_bundle<'a>(
    faults: &mut Vec<CheckFault>,
    names: &OwnedNames<'a>,
    blob: &'a Channel,
) -> Result<(), Memory>
    ensures { OnOk result (faults.new.items ≡ faults.old.items ++ flat_map (λ entry. rules.where_broken (not (has_owned names.now blob.now.«package» entry.name)) (rules.of_entry 7 blob.now entry)) blob.now.entries) }
{
    'entries: for entry in blob.entries.as_slice() {
        let is_without = !names.has(&blob.package, &entry.name);
        note_entry(faults, is_without, 7, blob, entry)?;
    }
    Ok(())
}

/// Entries without a bundle of their name in the package.
pub(crate) fn entries_without_bundle<'a>(
    alloc: Global,
    faults: &mut Vec<CheckFault>,
    bundles: &'a [Bundle],
    channels: &'a [Channel],
) -> Result<(), Memory>
    ensures { OnOk result (faults.new.items ≡ faults.old.items ++ rules.by_entries (rules.no_bundle bundles.now) channels.now) }
{
    let names = bundle_names(alloc, bundles)?;
    'channels: for blob in channels {
        note_without_bundle(faults, &names, blob)?;
    }
    Ok(())
}

fn has_bad_range(alloc: Global, entry: &Entry) -> Result<bool, Memory>
    ensures { IfOk result (λ bad. bad ≡ option_map_or (λ text. not (is_range text)) entry.now.skip_range false) }
{
    match &entry.skip_range {
        Some(range) => Ok(!is_range(alloc, range)?),
        None => Ok(false),
    }
}

fn note_bad(alloc: Global, faults: &mut Vec<CheckFault>, blob: &Channel) -> Result<(), Memory>
    ensures { OnOk result (faults.new.items ≡ faults.old.items ++ flat_map (rules.bad_entry blob.now) blob.now.entries) }
{
    'entries: for entry in blob.entries.as_slice() {
        let is_bad = has_bad_range(alloc, entry)?;
        note_entry(faults, is_bad, 14, blob, entry)?;
    }
    Ok(())
}

/// Entries whose `skipRange` is no range.
pub(crate) fn bad_entries(
    alloc: Global,
    faults: &mut Vec<CheckFault>,
    channels: &[Channel],
) -> Result<(), Memory>
    ensures { OnOk result (faults.new.items ≡ faults.old.items ++ rules.by_entries rules.bad_entry channels.now) }
{
    'channels: for blob in channels {
        note_bad(alloc, faults, blob)?;
    }
    Ok(())
}
