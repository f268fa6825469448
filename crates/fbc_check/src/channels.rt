// The rules of channels.
ghost use Rattle.std.specs.Prelude.{◌≡◌, ◌++◌, [], OnOk};
ghost use Rattle.std.specs.List.{flat_map};
ghost use Rattle.fbc_types.specs.Rules as rules;

use crate::notes::note_channel;
use crate::tables::package_names;
use fbc_types::{Channel, CheckFault, Package};
use name_tables::OwnedNames;
use olm_base::Memory;
use std::alloc::Global;

/// Channel blobs whose package and name an earlier one has.
pub(crate) fn repeated_channels(
    alloc: Global,
    faults: &mut Vec<CheckFault>,
    channels: &[Channel],
) -> Result<(), Memory>
    ensures { OnOk result (faults.new.items ≡ faults.old.items ++ rules.by_earlier rules.repeated_channel [] channels.now) }
{
    let mut earlier = OwnedNames::new(alloc);
    'channels: for blob in channels {
        let is_new = earlier.add(&blob.package, &blob.name)?;
        note_channel(faults, !is_new, 2, blob)?;
    }
    Ok(())
}

/// Channels whose package has no package blob.
pub(crate) fn lost_channels<'a>(
    alloc: Global,
    faults: &mut Vec<CheckFault>,
    packages: &'a [Package],
    channels: &'a [Channel],
) -> Result<(), Memory>
    ensures { OnOk result (faults.new.items ≡ faults.old.items ++ flat_map (rules.lost_channel packages.now) channels.now) }
{
    let names = package_names(alloc, packages)?;
    'channels: for blob in channels {
        let is_lost = !names.has(&blob.package);
        note_channel(faults, is_lost, 15, blob)?;
    }
    Ok(())
}
