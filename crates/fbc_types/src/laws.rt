//! What every catalog has that breaks no rule.

ghost use Rattle.fbc_types.specs.Laws.{BundlesAreRead, ChannelsHaveChains, EntriesAreBundles, PackagesHaveDefaults};

/// Each bundle gives exactly one version of its own package, and each text of a version or a range is one.
pub fn bundles_are_read()
    ensures { BundlesAreRead }
{}

/// Each channel has one head, no name stands twice on its chain, and each entry off the chain is skipped.
pub fn channels_have_chains()
    ensures { ChannelsHaveChains }
{}

/// Each entry has a bundle of its name in the package, its `skipRange` is a range, and it stands once in its channel.
pub fn entries_are_bundles()
    ensures { EntriesAreBundles }
{}

/// Each package has its default channel.
pub fn packages_have_defaults()
    ensures { PackagesHaveDefaults }
{}
