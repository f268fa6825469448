// The rules of heads and chains.
ghost use Rattle.std.specs.Prelude.{◌≡◌, ◌≤◌, ◌∷◌, [], ◌++◌, ◌||◌, IfOk, OnOk, length, map, filter, not};
ghost use Rattle.std.specs.List.{flat_map, list_any};
ghost use Rattle.fbc_types.specs.Channels as spec;
ghost use Rattle.fbc_types.specs.Rules as rules;
ghost use Rattle.name_tables.specs.Sets.{has};

use crate::links::{has_name_twice, names_on, skipped_names, taken_names};
use crate::notes::{note_channel, note_entry};
use fbc_types::{Channel, CheckFault, Entry};
use name_tables::NameSet;
use olm_base::Memory;
use std::alloc::Global;
use upgrade_graph::main_chain;

/// What is wrong with the heads and chains of channels, by rule.
#[derive(Drop)]
pub(crate) struct ChainFaults {
    pub headless: Vec<CheckFault>,
    pub many_headed: Vec<CheckFault>,
    pub circles: Vec<CheckFault>,
    pub stranded: Vec<CheckFault>,
}

// One where nothing takes the entry's place, else none.
fn count_one<'a>(taken: &NameSet<'a>, entry: &'a Entry) -> usize
    ensures count { result ≡ length (filter (λ other. not (has taken.now other.name)) (entry.now ∷ [])) }
    ensures one { result ≤ 1 }
{
    if taken.has(&entry.name) { 0 } else { 1 }
}

fn count_free<'a>(taken: &NameSet<'a>, entries: &'a [Entry]) -> usize
    ensures { result ≡ length (filter (λ entry. not (has taken.now entry.name)) entries.now) }
{
    let mut count = 0;
    'entries: for entry in entries {
        count += count_one(taken, entry);
    }
    count
}

fn count_heads(alloc: Global, entries: &[Entry]) -> Result<usize, Memory>
    ensures { IfOk result (λ count. count ≡ length (spec.heads entries.now)) }
{
    let taken = taken_names(alloc, entries)?;
    Ok(count_free(&taken, entries))
}

// Notes a channel without a head, or with two or more.
fn note_heads(found: &mut ChainFaults, heads: usize, blob: &Channel) -> Result<(), Memory>
    requires { heads ≡ length (spec.heads blob.now.entries) }
    ensures headless { OnOk result (found.new.headless.items ≡ found.old.headless.items ++ rules.no_head blob.now) }
    ensures many_headed { OnOk result (found.new.many_headed.items ≡ found.old.many_headed.items ++ rules.many_heads blob.now) }
    ensures circles { found.new.circles.items ≡ found.old.circles.items }
    ensures stranded { found.new.stranded.items ≡ found.old.stranded.items }
{
    note_channel(&mut found.headless, heads == 0, 9, blob)?;
    note_channel(&mut found.many_headed, heads >= 2, 10, blob)
}

// Notes the entries whose names are in neither set.
fn note_unreached<'a>(
    faults: &mut Vec<CheckFault>,
    on_chain: &NameSet<'a>,
    skipped: &NameSet<'a>,
    blob: &'a Channel,
) -> Result<(), Memory>
    ensures { OnOk result (faults.new.items ≡ faults.old.items ++ flat_map (λ entry. rules.where_broken (not (has on_chain.now entry.name || has skipped.now entry.name)) (rules.of_entry 12 blob.now entry)) blob.now.entries) }
{
    'entries: for entry in blob.entries.as_slice() {
        let is_reached = on_chain.has(&entry.name) || skipped.has(&entry.name);
        note_entry(faults, !is_reached, 12, blob, entry)?;
    }
    Ok(())
}

// Notes the entries that are neither on this chain nor skipped.
fn note_off_chain<'a>(
    alloc: Global,
    faults: &mut Vec<CheckFault>,
    chain: &[&'a Entry],
    blob: &'a Channel,
) -> Result<(), Memory>
    ensures { OnOk result (faults.new.items ≡ faults.old.items ++ flat_map (λ entry. rules.where_broken (not (spec.has_name entry.name (map (λ met. met.now) chain.now) || list_any (spec.skips entry.name) blob.now.entries)) (rules.of_entry 12 blob.now entry)) blob.now.entries) }
{
    let on_chain = names_on(alloc, chain)?;
    let skipped = skipped_names(alloc, blob.entries.as_slice())?;
    note_unreached(faults, &on_chain, &skipped, blob)
}

// Notes a channel with one head whose chain meets a name twice, and else the entries that are neither on the chain
// nor skipped.
#[tactic(auto, using(crate::proofs::Sole::circles_are, crate::proofs::Sole::stranded_are, crate::proofs::Sole::none_without_head, crate::proofs::Sole::none_in_circle))]
fn note_chain(
    alloc: Global,
    found: &mut ChainFaults,
    heads: usize,
    blob: &Channel,
) -> Result<(), Memory>
    requires { heads ≡ length (spec.heads blob.now.entries) }
    ensures headless { found.new.headless.items ≡ found.old.headless.items }
    ensures many_headed { found.new.many_headed.items ≡ found.old.many_headed.items }
    ensures circles { OnOk result (found.new.circles.items ≡ found.old.circles.items ++ rules.circle blob.now) }
    ensures stranded { OnOk result (found.new.stranded.items ≡ found.old.stranded.items ++ rules.stranded blob.now) }
{
    let chain = main_chain(alloc, blob.entries.as_slice())?;
    let is_twice = has_name_twice(alloc, &chain)?;
    note_channel(&mut found.circles, is_twice && heads == 1, 11, blob)?;
    if is_twice {
        return Ok(());
    }
    if heads != 1 {
        return Ok(());
    }
    note_off_chain(alloc, &mut found.stranded, &chain, blob)
}

/// Channels without a head, channels with two or more, channels with one where following `replaces` from it meets a
/// name twice, and the entries that are neither on the chain nor skipped in the others that have one.
pub(crate) fn chain_faults(alloc: Global, channels: &[Channel]) -> Result<ChainFaults, Memory>
    ensures headless { IfOk result (λ found. found.headless.items ≡ flat_map rules.no_head channels.now) }
    ensures many_headed { IfOk result (λ found. found.many_headed.items ≡ flat_map rules.many_heads channels.now) }
    ensures circles { IfOk result (λ found. found.circles.items ≡ flat_map rules.circle channels.now) }
    ensures stranded { IfOk result (λ found. found.stranded.items ≡ flat_map rules.stranded channels.now) }
{
    let mut found = ChainFaults {
        headless: Vec::new(alloc),
        many_headed: Vec::new(alloc),
        circles: Vec::new(alloc),
        stranded: Vec::new(alloc),
    };
    'channels: for blob in channels {
        let heads = count_heads(alloc, blob.entries.as_slice())?;
        note_heads(&mut found, heads, blob)?;
        note_chain(alloc, &mut found, heads, blob)?;
    }
    Ok(found)
}
