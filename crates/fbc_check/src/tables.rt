// Which names a catalog's blobs have.
ghost use Rattle.std.specs.Prelude.{◌≡◌, ◌||◌, ◌&&◌, ℕ, List, IfOk, OnOk};
ghost use Rattle.std.specs.List.{list_any};
ghost use Rattle.fbc_types.specs.Channels.{has_name};
ghost use Rattle.fbc_types.specs.Rules as rules;
ghost use Rattle.fbc_types.specs.Texts.{same};
ghost use Rattle.name_tables.specs.Sets.{has, has_owned};

use fbc_types::{Bundle, Channel, Package};
use name_tables::{NameSet, OwnedNames};
use olm_base::Memory;
use std::alloc::Global;

/// The names of the package blobs.
pub(crate) fn package_names(alloc: Global, packages: &[Package]) -> Result<NameSet<'_>, Memory>
    ensures { IfOk result (λ names. (name : List ℕ) → has names name ≡ rules.has_package packages.now name) }
{
    let mut names = NameSet::new(alloc);
    'packages: for blob in packages {
        names.add(&blob.name)?;
    }
    Ok(names)
}

/// The packages that have a channel.
pub(crate) fn packages_with_channels(
    alloc: Global,
    channels: &[Channel],
) -> Result<NameSet<'_>, Memory>
    ensures { IfOk result (λ names. (name : List ℕ) → has names name ≡ list_any (rules.is_channel_of name) channels.now) }
{
    let mut names = NameSet::new(alloc);
    'channels: for blob in channels {
        names.add(&blob.package)?;
    }
    Ok(names)
}

/// The names of each package's channels.
pub(crate) fn channel_names(alloc: Global, channels: &[Channel]) -> Result<OwnedNames<'_>, Memory>
    ensures { IfOk result (λ names. (owner name : List ℕ) → has_owned names owner name ≡ list_any (λ channel. rules.is_channel_of owner channel && same channel.name name) channels.now) }
{
    let mut names = OwnedNames::new(alloc);
    'channels: for blob in channels {
        names.add(&blob.package, &blob.name)?;
    }
    Ok(names)
}

/// The names of each package's bundles.
pub(crate) fn bundle_names(alloc: Global, bundles: &[Bundle]) -> Result<OwnedNames<'_>, Memory>
    ensures { IfOk result (λ names. (owner name : List ℕ) → has_owned names owner name ≡ list_any (λ bundle. rules.is_bundle_of owner bundle && same bundle.name name) bundles.now) }
{
    let mut names = OwnedNames::new(alloc);
    'bundles: for blob in bundles {
        names.add(&blob.package, &blob.name)?;
    }
    Ok(names)
}

fn add_listed<'a>(names: &mut OwnedNames<'a>, channel: &'a Channel) -> Result<(), Memory>
    ensures { OnOk result ((owner name : List ℕ) → has_owned names.new owner name ≡ (has_owned names.old owner name || (rules.is_channel_of owner channel.now && has_name name channel.now.entries))) }
{
    'entries: for entry in channel.entries.as_slice() {
        names.add(&channel.package, &entry.name)?;
    }
    Ok(())
}

/// The names that each package's channels list.
pub(crate) fn listed_names(alloc: Global, channels: &[Channel]) -> Result<OwnedNames<'_>, Memory>
    ensures { IfOk result (λ names. (owner name : List ℕ) → has_owned names owner name ≡ list_any (λ channel. rules.is_channel_of owner channel && has_name name channel.entries) channels.now) }
{
    let mut names = OwnedNames::new(alloc);
    'channels: for blob in channels {
        add_listed(&mut names, blob)?;
    }
    Ok(names)
}
