// All rules together.
ghost use Rattle.std.specs.Prelude.{◌≡◌, ◌++◌, [], OnOk, IfOk};
ghost use Rattle.std.specs.List.{flat_map};
ghost use Rattle.olm_base.specs.Outcome.{Gives};
ghost use Rattle.fbc_types.specs.Rules as rules;
ghost use Rattle.fbc_check.specs.Checking.{is_free, checked};

use crate::bundles::{
    bad_bundles, bundles_without_entry, bundles_without_version, lost_bundles, repeated_bundles,
};
use crate::chains::chain_faults;
use crate::channels::{lost_channels, repeated_channels};
use crate::entries::{bad_entries, entries_without_bundle, repeated_entries};
use crate::packages::{packages_without_channel, packages_without_default, repeated_packages};
use fbc_types::{Catalog, CheckFault, CheckedCatalog};
use olm_base::{Many, Memory};
use std::alloc::Global;

/// Why a catalog isn't kept as one that breaks no rule.
#[derive(Debug, Drop)]
pub enum CheckRefusal {
    /// It breaks these rules: the catalog, and all of the faults in their order.
    Broken {
        catalog: Catalog,
        faults: Many<CheckFault>,
    },
    /// Memory ran out, and the catalog was dropped.
    Memory,
}

// Names that stand twice.
fn note_repeated(
    alloc: Global,
    faults: &mut Vec<CheckFault>,
    catalog: &Catalog,
) -> Result<(), Memory>
    ensures { OnOk result (faults.new.items ≡ faults.old.items
        ++ (rules.by_earlier rules.repeated_package [] catalog.now.packages
        ++ (rules.by_earlier rules.repeated_channel [] catalog.now.channels
        ++ (rules.by_earlier rules.repeated_bundle [] catalog.now.bundles
        ++ flat_map (λ channel. rules.by_earlier (rules.repeated_entry channel) [] channel.entries) catalog.now.channels)))) }
{
    repeated_packages(alloc, faults, catalog.packages.as_slice())?;
    repeated_channels(alloc, faults, catalog.channels.as_slice())?;
    repeated_bundles(alloc, faults, catalog.bundles.as_slice())?;
    repeated_entries(alloc, faults, catalog.channels.as_slice())
}

// Packages, entries and bundles without what they need.
fn note_missing(
    alloc: Global,
    faults: &mut Vec<CheckFault>,
    catalog: &Catalog,
) -> Result<(), Memory>
    ensures { OnOk result (faults.new.items ≡ faults.old.items
        ++ (flat_map (rules.no_channel catalog.now.channels) catalog.now.packages
        ++ (flat_map (rules.no_default catalog.now.channels) catalog.now.packages
        ++ (rules.by_entries (rules.no_bundle catalog.now.bundles) catalog.now.channels
        ++ flat_map (rules.no_entry catalog.now.channels) catalog.now.bundles)))) }
{
    packages_without_channel(
        alloc,
        faults,
        catalog.channels.as_slice(),
        catalog.packages.as_slice(),
    )?;
    packages_without_default(
        alloc,
        faults,
        catalog.channels.as_slice(),
        catalog.packages.as_slice(),
    )?;
    entries_without_bundle(
        alloc,
        faults,
        catalog.bundles.as_slice(),
        catalog.channels.as_slice(),
    )?;
    bundles_without_entry(
        alloc,
        faults,
        catalog.channels.as_slice(),
        catalog.bundles.as_slice(),
    )
}

// Heads and chains.
fn note_chains(alloc: Global, faults: &mut Vec<CheckFault>, catalog: &Catalog) -> Result<(), Memory>
    ensures { OnOk result (faults.new.items ≡ faults.old.items
        ++ (flat_map rules.no_head catalog.now.channels
        ++ (flat_map rules.many_heads catalog.now.channels
        ++ (flat_map rules.circle catalog.now.channels
        ++ flat_map rules.stranded catalog.now.channels)))) }
{
    let mut found = chain_faults(alloc, catalog.channels.as_slice())?;
    faults.append(&mut found.headless)?;
    faults.append(&mut found.many_headed)?;
    faults.append(&mut found.circles)?;
    faults.append(&mut found.stranded)?;
    Ok(())
}

// Texts that are no versions or ranges.
fn note_texts(alloc: Global, faults: &mut Vec<CheckFault>, catalog: &Catalog) -> Result<(), Memory>
    ensures { OnOk result (faults.new.items ≡ faults.old.items
        ++ (flat_map rules.not_one_version catalog.now.bundles
        ++ (rules.by_entries rules.bad_entry catalog.now.channels ++ flat_map rules.bad_bundle catalog.now.bundles))) }
{
    bundles_without_version(faults, catalog.bundles.as_slice())?;
    bad_entries(alloc, faults, catalog.channels.as_slice())?;
    bad_bundles(alloc, faults, catalog.bundles.as_slice())
}

// Channels and bundles of no package.
fn note_lost(alloc: Global, faults: &mut Vec<CheckFault>, catalog: &Catalog) -> Result<(), Memory>
    ensures { OnOk result (faults.new.items ≡ faults.old.items
        ++ (flat_map (rules.lost_channel catalog.now.packages) catalog.now.channels
        ++ flat_map (rules.lost_bundle catalog.now.packages) catalog.now.bundles)) }
{
    lost_channels(
        alloc,
        faults,
        catalog.packages.as_slice(),
        catalog.channels.as_slice(),
    )?;
    lost_bundles(
        alloc,
        faults,
        catalog.packages.as_slice(),
        catalog.bundles.as_slice(),
    )
}

#[tactic(auto, using(crate::proofs::Whole::broken_is))]
fn faults_of(alloc: Global, catalog: &Catalog) -> Result<Vec<CheckFault>, Memory>
    ensures { IfOk result (λ faults. faults.items ≡ rules.broken catalog.now) }
{
    let mut faults = Vec::new(alloc);
    note_repeated(alloc, &mut faults, catalog)?;
    note_missing(alloc, &mut faults, catalog)?;
    note_chains(alloc, &mut faults, catalog)?;
    note_texts(alloc, &mut faults, catalog)?;
    note_lost(alloc, &mut faults, catalog)?;
    Ok(faults)
}

/// Keeps the catalog as one that breaks no rule, or lists every broken rule, by rule and then in the order of the
/// catalog's blobs and entries.
pub fn check(alloc: Global, catalog: Catalog) -> Result<CheckedCatalog, CheckRefusal>
    ensures { Gives is_free (checked catalog) result }
{
    let Ok(faults) = faults_of(alloc, &catalog) else {
        return Err(CheckRefusal::Memory);
    };
    if faults.is_empty() {
        Ok(CheckedCatalog::new(catalog))
    } else {
        Err(CheckRefusal::Broken {
            catalog,
            faults: Many::from_vec(faults),
        })
    }
}
