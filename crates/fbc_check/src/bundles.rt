// The rules of bundles.
ghost use Rattle.std.specs.Prelude.{◌≡◌, ◌++◌, [], OnOk};
ghost use Rattle.std.specs.List.{flat_map};
ghost use Rattle.fbc_types.specs.Rules as rules;

use crate::notes::note_bundle;
use crate::tables::{listed_names, package_names};
use crate::texts::{count_own_versions, has_bad_property};
use fbc_types::{Bundle, Channel, CheckFault, Package};
use name_tables::OwnedNames;
use olm_base::Memory;
use std::alloc::Global;

/// Bundle blobs whose package and name an earlier one has.
pub(crate) fn repeated_bundles(
    alloc: Global,
    faults: &mut Vec<CheckFault>,
    bundles: &[Bundle],
) -> Result<(), Memory>
    ensures { OnOk result (faults.new.items ≡ faults.old.items ++ rules.by_earlier rules.repeated_bundle [] bundles.now) }
{
    let mut earlier = OwnedNames::new(alloc);
    'bundles: for blob in bundles {
        let is_new = earlier.add(&blob.package, &blob.name)?;
        note_bundle(faults, !is_new, 3, blob)?;
    }
    Ok(())
}

/// Bundles that are in no channel of their package.
pub(crate) fn bundles_without_entry<'a>(
    alloc: Global,
    faults: &mut Vec<CheckFault>,
    channels: &'a [Channel],
    bundles: &'a [Bundle],
) -> Result<(), Memory>
    ensures { OnOk result (faults.new.items ≡ faults.old.items ++ flat_map (rules.no_entry channels.now) bundles.now) }
{
    let listed = listed_names(alloc, channels)?;
    'bundles: for blob in bundles {
        let is_without = !listed.has(&blob.package, &blob.name);
        note_bundle(faults, is_without, 8, blob)?;
    }
    Ok(())
}

/// Bundles without exactly one version of their own package.
pub(crate) fn bundles_without_version(
    faults: &mut Vec<CheckFault>,
    bundles: &[Bundle],
) -> Result<(), Memory>
    ensures { OnOk result (faults.new.items ≡ faults.old.items ++ flat_map rules.not_one_version bundles.now) }
{
    'bundles: for blob in bundles {
        let is_without = count_own_versions(blob) != 1;
        note_bundle(faults, is_without, 13, blob)?;
    }
    Ok(())
}

/// Bundles with a version or a range that is none.
pub(crate) fn bad_bundles(
    alloc: Global,
    faults: &mut Vec<CheckFault>,
    bundles: &[Bundle],
) -> Result<(), Memory>
    ensures { OnOk result (faults.new.items ≡ faults.old.items ++ flat_map rules.bad_bundle bundles.now) }
{
    'bundles: for blob in bundles {
        let is_bad = has_bad_property(alloc, blob.properties.as_slice())?;
        note_bundle(faults, is_bad, 14, blob)?;
    }
    Ok(())
}

/// Bundles whose package has no package blob.
pub(crate) fn lost_bundles<'a>(
    alloc: Global,
    faults: &mut Vec<CheckFault>,
    packages: &'a [Package],
    bundles: &'a [Bundle],
) -> Result<(), Memory>
    ensures { OnOk result (faults.new.items ≡ faults.old.items ++ flat_map (rules.lost_bundle packages.now) bundles.now) }
{
    let names = package_names(alloc, packages)?;
    'bundles: for blob in bundles {
        let is_lost = !names.has(&blob.package);
        note_bundle(faults, is_lost, 15, blob)?;
    }
    Ok(())
}
