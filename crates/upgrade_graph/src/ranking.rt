// The entries off the chain, the highest version first.
ghost use Rattle.std.specs.Prelude.{◌≡◌, List, map, filter, All, IfOk, IsSome, not};
ghost use Rattle.std.specs.Option.{option_copied};
ghost use Rattle.semver.specs.Identifiers.{parts_of};
ghost use Rattle.std.specs.List.{list_any};
ghost use Rattle.fbc_types.specs.Texts.{same};
ghost use Rattle.upgrade_graph.specs.Order as order;
ghost use Rattle.upgrade_graph.specs.Ranks.{rank_of, stands_for, IsRanked};
ghost use Rattle.upgrade_graph.specs.Sorting.{sorted};

use crate::tables::{bundles_by_name, names_on};
use crate::versions::version_named;
use fbc_types::{Bundle, Entry};
use olm_base::{Memory, Name};
use semver::Version;
use std::alloc::Global;
use std::cmp::Ordering;
use version_ranges::precedence_law;

/// An entry and its version.
#[derive(Drop)]
pub(crate) struct Ranked<'a> {
    version: Version,
    entry: &'a Entry,
}

/// Which of two comes first: the one with the higher version, by precedence, and of equal ones the lower name.
fn compare(left: &Ranked, right: &Ranked) -> Ordering
    ensures { result ≡ order.rank_cmp (rank_of left.now) (rank_of right.now) }
{
    let by_version = right.version.cmp_precedence(&left.version);
    by_version.then_with(|| left.entry.name.cmp(&right.entry.name))
}

/// The entries whose names aren't on the chain.
pub(crate) fn off_chain<'a>(
    alloc: Global,
    entries: &'a [Entry],
    chain: &[&Entry],
) -> Result<Vec<&'a Entry>, Memory>
    ensures { IfOk result (λ others. map (λ entry. entry.now) others.items ≡ filter (λ entry. not (list_any (λ link. same link.now.name entry.name) chain.now)) entries.now) }
{
    let on_chain = names_on(alloc, chain)?;
    let mut others = Vec::new(alloc);
    for entry in entries {
        if on_chain.contains(&entry.name) {
            continue;
        }
        others.push(entry)?;
    }
    Ok(others)
}

fn rank_all<'a>(
    alloc: Global,
    bundles: &[Bundle],
    owner: &Name,
    entries: &[&'a Entry],
) -> Result<Vec<Ranked<'a>>, Memory>
    requires { All (λ entry. IsSome (order.version_named bundles.now owner.now entry.now.name)) entries.now }
    ensures same { IfOk result (λ ranked. map stands_for ranked.items ≡ map (λ entry. entry.now) entries.now) }
    ensures ranks { IfOk result (λ ranked. All (IsRanked bundles.now owner.now) ranked.items) }
{
    let table = bundles_by_name(alloc, bundles, owner)?;
    let mut ranked = Vec::new(alloc);
    for entry in entries {
        let version = version_named(alloc, &table, &entry.name)?;
        ranked.push(Ranked { version, entry })?;
    }
    Ok(ranked)
}

fn entries_of<'a>(alloc: Global, ranked: &[Ranked<'a>]) -> Result<Vec<&'a Entry>, Memory>
    ensures { IfOk result (λ found. map (λ entry. entry.now) found.items ≡ map stands_for ranked.now) }
{
    let mut found = Vec::new(alloc);
    for item in ranked {
        found.push(item.entry)?;
    }
    Ok(found)
}

/// The entries, each of which has a version, by their versions, the highest first, and then by their names.
pub(crate) fn by_rank<'a>(
    alloc: Global,
    bundles: &[Bundle],
    owner: &Name,
    entries: &[&'a Entry],
) -> Result<Vec<&'a Entry>, Memory>
    requires { All (λ entry. IsSome (order.version_named bundles.now owner.now entry.now.name)) entries.now }
    ensures { IfOk result (λ found. map (λ entry. entry.now) found.items ≡ sorted (order.is_before bundles.now owner.now) (map (λ entry. entry.now) entries.now)) }
{
    precedence_law();
    let mut ranked = rank_all(alloc, bundles, owner, entries)?;
    ranked.sort_by(|left, right| compare(left, right))?;
    entries_of(alloc, ranked.as_slice())
}
