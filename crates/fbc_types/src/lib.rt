//! File-based catalogs as values: packages, channels with their entries, bundles with their properties, and the
//! rules that a catalog must keep.
//!
//! Every list is in the order of the catalog's blobs. What the rules say stands in `specs/Rules.antt`, over these
//! lists alone, and a [`CheckedCatalog`] is a catalog that breaks none of them.
#![tactic(auto)]

mod catalog;
mod checked;
mod fault;
mod laws;
mod property;
mod versions;

pub use catalog::{Bundle, Catalog, Channel, Deprecation, Entry, Manifests, Package};
pub use checked::CheckedCatalog;
pub use fault::CheckFault;
pub use laws::{
    bundles_are_read, channels_have_chains, entries_are_bundles, packages_have_defaults,
};
pub use property::{Property, RawConstraint};
pub use versions::own_version;
