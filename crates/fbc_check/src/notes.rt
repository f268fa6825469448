// Faults, noted behind those that were found.
ghost use Rattle.std.specs.Prelude.{◌≡◌, ◌++◌, OnOk};
ghost use Rattle.fbc_types.specs.Rules.{where_broken, of_package, of_channel, of_entry, of_bundle};

use fbc_types::{Bundle, Channel, CheckFault, Entry, Package};
use olm_base::Memory;

/// Notes that the package breaks the rule of this number, where it does.
pub(crate) fn note_package(
    faults: &mut Vec<CheckFault>,
    is_broken: bool,
    rule: u8,
    blob: &Package,
) -> Result<(), Memory>
    ensures { OnOk result (faults.new.items ≡ faults.old.items ++ where_broken is_broken (of_package rule blob.now)) }
{
    if is_broken {
        faults.push(CheckFault {
            rule,
            package: blob.name.clone()?,
            channel: None,
            item: None,
        })?;
    }
    Ok(())
}

/// Notes that the channel breaks the rule of this number, where it does.
pub(crate) fn note_channel(
    faults: &mut Vec<CheckFault>,
    is_broken: bool,
    rule: u8,
    blob: &Channel,
) -> Result<(), Memory>
    ensures { OnOk result (faults.new.items ≡ faults.old.items ++ where_broken is_broken (of_channel rule blob.now)) }
{
    if is_broken {
        faults.push(CheckFault {
            rule,
            package: blob.package.clone()?,
            channel: Some(blob.name.clone()?),
            item: None,
        })?;
    }
    Ok(())
}

/// Notes that the entry of the channel breaks the rule of this number, where it does.
pub(crate) fn note_entry(
    faults: &mut Vec<CheckFault>,
    is_broken: bool,
    rule: u8,
    blob: &Channel,
    entry: &Entry,
) -> Result<(), Memory>
    ensures { OnOk result (faults.new.items ≡ faults.old.items ++ where_broken is_broken (of_entry rule blob.now entry.now)) }
{
    if is_broken {
        faults.push(CheckFault {
            rule,
            package: blob.package.clone()?,
            channel: Some(blob.name.clone()?),
            item: Some(entry.name.clone()?),
        })?;
    }
    Ok(())
}

/// Notes that the bundle breaks the rule of this number, where it does.
pub(crate) fn note_bundle(
    faults: &mut Vec<CheckFault>,
    is_broken: bool,
    rule: u8,
    blob: &Bundle,
) -> Result<(), Memory>
    ensures { OnOk result (faults.new.items ≡ faults.old.items ++ where_broken is_broken (of_bundle rule blob.now)) }
{
    if is_broken {
        faults.push(CheckFault {
            rule,
            package: blob.package.clone()?,
            channel: None,
            item: Some(blob.name.clone()?),
        })?;
    }
    Ok(())
}
