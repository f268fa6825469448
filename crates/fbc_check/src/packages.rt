// The rules of packages.
ghost use Rattle.std.specs.Prelude.{◌≡◌, ◌++◌, ◌&&◌, [], OnOk, not};
ghost use Rattle.std.specs.List.{flat_map};
ghost use Rattle.fbc_types.specs.Rules as rules;
ghost use Rattle.name_tables.specs.Sets.{has, has_owned};

use crate::notes::note_package;
use crate::tables::{channel_names, packages_with_channels};
use fbc_types::{Channel, CheckFault, Package};
use name_tables::{NameSet, OwnedNames};
use olm_base::Memory;
use std::alloc::Global;

/// Package blobs whose name an earlier one has.
pub(crate) fn repeated_packages(
    alloc: Global,
    faults: &mut Vec<CheckFault>,
    packages: &[Package],
) -> Result<(), Memory>
    ensures { OnOk result (faults.new.items ≡ faults.old.items ++ rules.by_earlier rules.repeated_package [] packages.now) }
{
    let mut earlier = NameSet::new(alloc);
    'packages: for blob in packages {
        let is_new = earlier.add(&blob.name)?;
        note_package(faults, !is_new, 1, blob)?;
    }
    Ok(())
}

/// Packages without a channel.
pub(crate) fn packages_without_channel<'a>(
    alloc: Global,
    faults: &mut Vec<CheckFault>,
    channels: &'a [Channel],
    packages: &'a [Package],
) -> Result<(), Memory>
    ensures { OnOk result (faults.new.items ≡ faults.old.items ++ flat_map (rules.no_channel channels.now) packages.now) }
{
    let with_channels = packages_with_channels(alloc, channels)?;
    'packages: for blob in packages {
        let is_without = !with_channels.has(&blob.name);
        note_package(faults, is_without, 5, blob)?;
    }
    Ok(())
}

fn lacks_default<'a>(with_channels: &NameSet<'a>, names: &OwnedNames<'a>, blob: &'a Package) -> bool
    ensures { result ≡ (has with_channels.now blob.now.name && not (has_owned names.now blob.now.name blob.now.default_channel)) }
{
    with_channels.has(&blob.name) && !names.has(&blob.name, &blob.default_channel)
}

/// Packages with channels, none of them the default channel.
pub(crate) fn packages_without_default<'a>(
    alloc: Global,
    faults: &mut Vec<CheckFault>,
    channels: &'a [Channel],
    packages: &'a [Package],
) -> Result<(), Memory>
    ensures { OnOk result (faults.new.items ≡ faults.old.items ++ flat_map (rules.no_default channels.now) packages.now) }
{
    let with_channels = packages_with_channels(alloc, channels)?;
    let names = channel_names(alloc, channels)?;
    'packages: for blob in packages {
        let is_without = lacks_default(&with_channels, &names, blob);
        note_package(faults, is_without, 6, blob)?;
    }
    Ok(())
}
