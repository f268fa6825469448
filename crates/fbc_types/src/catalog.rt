// What a catalog's blobs give.
ghost use Rattle.std.specs.Prelude.{◌≡◌, []};

use crate::Property;
use olm_base::{Bytes, Many, Name, Text};
use std::alloc::Global;

/// An operator's package, from a blob of the schema `olm.package`.
#[derive(Debug, Drop, PartialEq)]
pub struct Package {
    pub name: Name,
    pub default_channel: Name,
}

/// A channel of a package, from a blob of the schema `olm.channel`.
#[derive(Debug, Drop, PartialEq)]
pub struct Channel {
    pub package: Name,
    pub name: Name,
    pub entries: Many<Entry>,
}

/// A bundle as a channel lists it, with what it can upgrade: the bundle that it replaces, those that it skips, and
/// the range of versions that it upgrades from.
#[derive(Debug, Drop, PartialEq)]
pub struct Entry {
    pub name: Name,
    pub replaces: Option<Name>,
    pub skips: Many<Name>,
    pub skip_range: Option<Text>,
}

/// One version of an operator, from a blob of the schema `olm.bundle`. A blob without an image has the empty one.
#[derive(Debug, Drop, PartialEq)]
pub struct Bundle {
    pub package: Name,
    pub name: Name,
    pub image: Text,
    pub properties: Many<Property>,
}

/// An entry of a blob of the schema `olm.deprecations`: the schema and the name of what it deprecates, as they are
/// written, and the message for the user. No rule speaks of them, and they never change a choice.
#[derive(Debug, Drop, PartialEq)]
pub struct Deprecation {
    pub package: Name,
    pub schema: Text,
    pub name: Option<Name>,
    pub message: Text,
}

/// The manifests of a bundle's image, from a blob of the schema `local.manifests`.
#[derive(Debug, Drop, PartialEq)]
pub struct Manifests {
    pub image: Text,
    pub bodies: Many<Bytes>,
}

/// A catalog as it was read. It may break the rules.
#[derive(Debug, Drop, PartialEq)]
pub struct Catalog {
    pub packages: Many<Package>,
    pub channels: Many<Channel>,
    pub bundles: Many<Bundle>,
    pub deprecations: Many<Deprecation>,
    pub manifests: Many<Manifests>,
}

impl Catalog {
    /// The catalog of no blobs.
    pub fn new(alloc: Global) -> Catalog
        ensures { result ≡ record { packages = []; channels = []; bundles = []; deprecations = []; manifests = [] } }
    {
        Catalog {
            packages: Many::new(alloc),
            channels: Many::new(alloc),
            bundles: Many::new(alloc),
            deprecations: Many::new(alloc),
            manifests: Many::new(alloc),
        }
    }
}
