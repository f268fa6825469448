// Which names a channel's entries replace, skip and stand under.
ghost use Rattle.std.specs.Prelude.{◌≡◌, ◌||◌, ℕ, List, IfOk, OnOk, map};
ghost use Rattle.std.specs.List.{list_any};
ghost use Rattle.fbc_types.specs.Channels as channels;
ghost use Rattle.name_tables.specs.Sets.{has};

use fbc_types::Entry;
use name_tables::NameSet;
use olm_base::Memory;
use std::alloc::Global;

fn add_replaced<'a>(names: &mut NameSet<'a>, entry: &'a Entry) -> Result<(), Memory>
    ensures { OnOk result ((name : List ℕ) → has names.new name ≡ (has names.old name || channels.replaces name entry.now)) }
{
    match &entry.replaces {
        Some(replaced) => {
            names.add(replaced)?;
            Ok(())
        }
        None => Ok(()),
    }
}

fn add_skipped<'a>(names: &mut NameSet<'a>, entry: &'a Entry) -> Result<(), Memory>
    ensures { OnOk result ((name : List ℕ) → has names.new name ≡ (has names.old name || channels.skips name entry.now)) }
{
    'skips: for skipped in entry.skips.as_slice() {
        names.add(skipped)?;
    }
    Ok(())
}

fn add_taken<'a>(names: &mut NameSet<'a>, entry: &'a Entry) -> Result<(), Memory>
    ensures { OnOk result ((name : List ℕ) → has names.new name ≡ (has names.old name || channels.takes_over name entry.now)) }
{
    add_replaced(names, entry)?;
    add_skipped(names, entry)
}

/// The names that some entry replaces or skips.
pub(crate) fn taken_names(alloc: Global, entries: &[Entry]) -> Result<NameSet<'_>, Memory>
    ensures { IfOk result (λ names. (name : List ℕ) → has names name ≡ list_any (channels.takes_over name) entries.now) }
{
    let mut names = NameSet::new(alloc);
    'entries: for entry in entries {
        add_taken(&mut names, entry)?;
    }
    Ok(names)
}

/// The names that some entry skips.
pub(crate) fn skipped_names(alloc: Global, entries: &[Entry]) -> Result<NameSet<'_>, Memory>
    ensures { IfOk result (λ names. (name : List ℕ) → has names name ≡ list_any (channels.skips name) entries.now) }
{
    let mut names = NameSet::new(alloc);
    'entries: for entry in entries {
        add_skipped(&mut names, entry)?;
    }
    Ok(names)
}

/// The names of these entries.
pub(crate) fn names_on<'a>(alloc: Global, chain: &[&'a Entry]) -> Result<NameSet<'a>, Memory>
    ensures { IfOk result (λ names. (name : List ℕ) → has names name ≡ channels.has_name name (map (λ entry. entry.now) chain.now)) }
{
    let mut names = NameSet::new(alloc);
    'entries: for &entry in chain {
        names.add(&entry.name)?;
    }
    Ok(names)
}

/// Whether two of these entries have one name.
pub(crate) fn has_name_twice(alloc: Global, chain: &[&Entry]) -> Result<bool, Memory>
    ensures { IfOk result (λ is_twice. is_twice ≡ channels.has_name_twice (map (λ entry. entry.now) chain.now)) }
{
    let mut met = NameSet::new(alloc);
    'entries: for &entry in chain {
        if !met.add(&entry.name)? {
            return Ok(true);
        }
    }
    Ok(false)
}
