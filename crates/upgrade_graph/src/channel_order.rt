// The order of a channel's entries.
ghost use Rattle.std.specs.Prelude.{◌≡◌, ◌++◌, map, All, IfOk, IsSome};
ghost use Rattle.std.specs.Option.{option_copied, option_map};
ghost use Rattle.fbc_types.specs.Rules.{is_channel_of, broken};
ghost use Rattle.fbc_types.specs.Texts.{same};
ghost use Rattle.std.specs.Prelude.{◌&&◌};
ghost use Rattle.upgrade_graph.specs.Order as spec;
ghost use Rattle.upgrade_graph.specs.Ranks.{HasVersions};

use crate::chain::main_chain;
use crate::ranking::{by_rank, off_chain};
use fbc_types::{Bundle, Channel, CheckedCatalog, Entry, bundles_are_read, entries_are_bundles};
use olm_base::{Many, Memory, Name};
use std::alloc::Global;

fn is_channel(channel: &Channel, owner: &Name, name: &Name) -> bool
    ensures { result ≡ (is_channel_of owner.now channel.now && same channel.now.name name.now) }
{
    channel.package == *owner && channel.name == *name
}

pub(crate) fn channel_named<'a>(
    channels: &'a [Channel],
    owner: &Name,
    name: &Name,
) -> Option<&'a Channel>
    ensures { option_copied result ≡ spec.channel_named channels.now owner.now name.now }
{
    channels
        .iter()
        .find(|channel| is_channel(channel, owner, name))
}

/// The channel's entries, each of which has a version, in channel order.
pub(crate) fn in_order<'a>(
    alloc: Global,
    bundles: &[Bundle],
    channel: &'a Channel,
) -> Result<Vec<&'a Entry>, Memory>
    requires { HasVersions bundles.now channel.now.«package» channel.now.entries }
    ensures { IfOk result (λ found. map (λ entry. entry.now) found.items ≡ spec.in_order bundles.now channel.now) }
{
    let mut found = main_chain(alloc, channel.entries.as_slice())?;
    let others = off_chain(alloc, channel.entries.as_slice(), found.as_slice())?;
    let mut ranked = by_rank(alloc, bundles, &channel.package, others.as_slice())?;
    found.append(&mut ranked)?;
    Ok(found)
}

fn names_of(alloc: Global, entries: &[&Entry]) -> Result<Many<Name>, Memory>
    ensures { IfOk result (λ names. names ≡ map (λ entry. entry.now.name) entries.now) }
{
    let mut names = Vec::new(alloc);
    for entry in entries {
        names.push(entry.name.clone()?)?;
    }
    Ok(Many::from_vec(names))
}

fn order_of(alloc: Global, bundles: &[Bundle], channel: &Channel) -> Result<Many<Name>, Memory>
    requires { HasVersions bundles.now channel.now.«package» channel.now.entries }
    ensures { IfOk result (λ names. names ≡ spec.names (spec.in_order bundles.now channel.now)) }
{
    let entries = in_order(alloc, bundles, channel)?;
    names_of(alloc, entries.as_slice())
}

/// The names of a channel's entries in channel order: those on the chain from its head, and then the others by
/// their versions, the highest first, and of equal ones by their names. None exactly where the package has no such
/// channel.
///
/// It goes through the catalog's channels and bundles once. Beyond that, with n entries that name m others and b
/// bundles of the package, it takes the time of n + m + b look-ups in tables of names and of a sort, and memory for
/// these names.
pub fn order(
    alloc: Global,
    catalog: &CheckedCatalog,
    package: &Name,
    channel: &Name,
) -> Result<Option<Many<Name>>, Memory>
    ensures { IfOk result (λ names. names ≡ spec.order catalog.now «package».now channel.now) }
{
    bundles_are_read();
    entries_are_bundles();
    let catalog = catalog.catalog();
    match channel_named(catalog.channels.as_slice(), package, channel) {
        Some(channel) => Ok(Some(order_of(alloc, catalog.bundles.as_slice(), channel)?)),
        None => Ok(None),
    }
}
