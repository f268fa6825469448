// A channel's entries in channel order, each with the range that its `skipRange` writes.
ghost use Rattle.std.specs.Prelude.{◌≡◌, Ok, true, map, All, IfOk};
ghost use Rattle.std.specs.Option.{option_and_then, option_map_or};
ghost use Rattle.version_ranges.specs.Reading.{reading};
ghost use Rattle.fbc_types.specs.Texts.{is_range};
ghost use Rattle.upgrade_graph.specs.Order as spec;
ghost use Rattle.upgrade_graph.specs.Placed.{entry_of, range_of, IsPlaced};
ghost use Rattle.upgrade_graph.specs.Ranks.{HasVersions};

use crate::channel_order::{channel_named, in_order};
use fbc_types::{Bundle, Channel, CheckedCatalog, Entry, bundles_are_read, entries_are_bundles};
use olm_base::{Memory, Name};
use std::alloc::Global;
use std::marker::Model;
use version_ranges::Range;

/// An entry, and the range that its `skipRange` writes.
#[derive(Drop)]
pub(crate) struct Placed<'a> {
    pub(crate) entry: &'a Entry,
    pub(crate) range: Option<Range>,
}

/// A channel's entries in channel order, to be asked for the upgrades from many bundles. Contracts see it as the list
/// of these entries.
#[derive(Drop)]
pub struct ChannelOrder<'a> {
    pub(crate) entries: Vec<Placed<'a>>,
}

impl<'a> Model for ChannelOrder<'a> {
    ghost use Rattle.std.specs.Prelude.{List, map, All};
    ghost use Rattle.fbc_types.specs.declared.catalog.Entry.{Entry};
    ghost use Rattle.upgrade_graph.specs.Placed.{entry_of, IsPlaced};

    ghost Value = { List Entry };

    ghost view = { λ ordered. map entry_of ordered.entries.items };

    ghost invariant = { λ ordered. All IsPlaced ordered.entries.items };
}

/// The range that a text writes. The only error is want of memory, since the text writes one.
fn read_range(alloc: Global, text: &str) -> Result<Range, Memory>
    requires { is_range text.now ≡ true }
    ensures { IfOk result (λ range. reading text.now ≡ Ok range) }
{
    match Range::parse(alloc, text) {
        Ok(range) => Ok(range),
        Err(_) => Err(Memory),
    }
}

/// The range of the entry's `skipRange`, where it has one.
fn range_of(alloc: Global, entry: &Entry) -> Result<Option<Range>, Memory>
    requires { option_map_or is_range entry.now.skip_range true ≡ true }
    ensures { IfOk result (λ range. range ≡ option_and_then range_of entry.now.skip_range) }
{
    match &entry.skip_range {
        Some(text) => Ok(Some(read_range(alloc, text.as_str())?)),
        None => Ok(None),
    }
}

fn place_all<'a>(alloc: Global, entries: &[&'a Entry]) -> Result<Vec<Placed<'a>>, Memory>
    requires { All (λ entry. option_map_or is_range entry.now.skip_range true ≡ true) entries.now }
    ensures same { IfOk result (λ placed. map entry_of placed.items ≡ map (λ entry. entry.now) entries.now) }
    ensures ranges { IfOk result (λ placed. All IsPlaced placed.items) }
{
    let mut placed = Vec::new(alloc);
    for entry in entries {
        let range = range_of(alloc, entry)?;
        placed.push(Placed { entry, range })?;
    }
    Ok(placed)
}

fn ordered_in<'a>(
    alloc: Global,
    bundles: &[Bundle],
    channel: &'a Channel,
) -> Result<ChannelOrder<'a>, Memory>
    requires versions { HasVersions bundles.now channel.now.«package» channel.now.entries }
    requires ranges { All (λ entry. option_map_or is_range entry.skip_range true ≡ true) channel.now.entries }
    ensures { IfOk result (λ found. found ≡ spec.in_order bundles.now channel.now) }
{
    let entries = in_order(alloc, bundles, channel)?;
    let placed = place_all(alloc, entries.as_slice())?;
    Ok(ChannelOrder { entries: placed })
}

/// The entries of a channel in channel order. None exactly where the package has no such channel.
///
/// It takes the time of `order`, and reads each `skipRange` once.
pub fn entries_in_order<'a>(
    alloc: Global,
    catalog: &'a CheckedCatalog,
    package: &Name,
    channel: &Name,
) -> Result<Option<ChannelOrder<'a>>, Memory>
    ensures { IfOk result (λ found. found ≡ spec.ordered catalog.now «package».now channel.now) }
{
    bundles_are_read();
    entries_are_bundles();
    let catalog = catalog.catalog();
    match channel_named(catalog.channels.as_slice(), package, channel) {
        Some(channel) => Ok(Some(ordered_in(alloc, catalog.bundles.as_slice(), channel)?)),
        None => Ok(None),
    }
}
