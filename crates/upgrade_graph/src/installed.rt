// What an installed bundle can be upgraded to.
ghost use Rattle.std.specs.Prelude.{◌≡◌, false, map, All, IfOk};
ghost use Rattle.std.specs.Option.{option_map_or};
ghost use Rattle.semver.specs.Identifiers.{parts_of};
ghost use Rattle.version_ranges.specs.Conditions.{holds_of};
ghost use Rattle.upgrade_graph.specs.Order.{names};
ghost use Rattle.upgrade_graph.specs.Placed.{entry_of, IsPlaced};
ghost use Rattle.upgrade_graph.specs.Upgrades as spec;

use crate::chain::takes_over;
use crate::placed::{ChannelOrder, Placed, entries_in_order};
use fbc_types::CheckedCatalog;
use olm_base::{Many, Memory, Name};
use semver::Version;
use std::alloc::Global;
use version_ranges::Range;

fn is_within(range: &Option<Range>, version: &Version) -> bool
    ensures { result ≡ option_map_or (λ terms. holds_of terms (parts_of version.now)) range.now false }
{
    match range {
        Some(range) => range.holds(version),
        None => false,
    }
}

fn skips_version(placed: &Placed<'_>, version: &Version) -> bool
    requires { IsPlaced placed.now }
    ensures { result ≡ spec.skips_version (parts_of version.now) placed.now.entry.now }
{
    is_within(&placed.range, version)
}

fn takes_place(placed: &Placed<'_>, name: &Name, version: &Version) -> bool
    requires { IsPlaced placed.now }
    ensures { result ≡ spec.takes_place name.now (parts_of version.now) placed.now.entry.now }
{
    takes_over(name, placed.entry) || skips_version(placed, version)
}

/// The names of the upgrades among the entries of a channel, which stand in channel order.
fn upgrades_among(
    alloc: Global,
    entries: &[Placed<'_>],
    name: &Name,
    version: &Version,
) -> Result<Vec<Name>, Memory>
    requires { All IsPlaced entries.now }
    ensures { IfOk result (λ found. found.items ≡ names (spec.upgrades_among (map entry_of entries.now) name.now (parts_of version.now))) }
{
    let mut found = Vec::new(alloc);
    for placed in entries {
        if placed.entry.name == *name {
            break;
        }
        if !takes_place(placed, name, version) {
            continue;
        }
        found.push(placed.entry.name.clone()?)?;
    }
    Ok(found)
}

fn names_of(alloc: Global, entries: &[Placed<'_>]) -> Result<Vec<Name>, Memory>
    ensures { IfOk result (λ found. found.items ≡ names (map entry_of entries.now)) }
{
    let mut found = Vec::new(alloc);
    for placed in entries {
        found.push(placed.entry.name.clone()?)?;
    }
    Ok(found)
}

impl<'a> ChannelOrder<'a> {
    /// The names of these entries.
    pub fn names(&self, alloc: Global) -> Result<Many<Name>, Memory>
        ensures { IfOk result (λ found. found ≡ names self.now) }
    {
        let found = names_of(alloc, self.entries.as_slice())?;
        Ok(Many::from_vec(found))
    }

    /// The names of the upgrades among these entries from the installed bundle of a name and a version, as `upgrades`
    /// has them. It compares the name with what each entry before the installed bundle replaces and skips.
    pub fn upgrades(
        &self,
        alloc: Global,
        from: &Name,
        version: &Version,
    ) -> Result<Many<Name>, Memory>
        ensures { IfOk result (λ found. found ≡ names (spec.upgrades_among self.now from.now (parts_of version.now))) }
    {
        let found = upgrades_among(alloc, self.entries.as_slice(), from, version)?;
        Ok(Many::from_vec(found))
    }
}

/// The names of the upgrades in a channel from the installed bundle of a name and a version, in channel order: the
/// entries that replace it, skip it, or have its version in their `skipRange`, and that stand before it where it is
/// in the channel. The channel needn't have it. There are none where the package has no such channel.
///
/// It takes the time of `order`, and reads each `skipRange` once.
#[tactic(auto, using(crate::proofs::Placing::upgrades_are))]
pub fn upgrades(
    alloc: Global,
    catalog: &CheckedCatalog,
    package: &Name,
    channel: &Name,
    from: &Name,
    version: &Version,
) -> Result<Many<Name>, Memory>
    ensures { IfOk result (λ found. found ≡ spec.upgrades catalog.now «package».now channel.now from.now (parts_of version.now)) }
{
    match entries_in_order(alloc, catalog, package, channel)? {
        Some(entries) => entries.upgrades(alloc, from, version),
        None => Ok(Many::new(alloc)),
    }
}
