// What a bundle or an installed version provides.
ghost use Rattle.std.specs.Prelude.{◌≡◌, ◌<◌, Some, IfOk, true, length, slice_get};
ghost use Rattle.std.specs.Option.{option_and_then};
ghost use Rattle.fbc_types.specs.Laws.{HasOneVersion};
ghost use Rattle.fbc_types.specs.Texts as texts;
ghost use Rattle.semver.specs.Identifiers.{parts_of};
ghost use Rattle.version_ranges.specs.Words as words;
ghost use Rattle.op_properties.specs.Offers as spec;

use fbc_types::{Bundle, CheckedCatalog, Property, bundles_are_read, own_version};
use olm_base::{Gvk, Many, Memory, Name, Text};
use semver::{Error, Version};
use std::alloc::{AllocError, Global};

/// What a bundle or an installed version provides: its package, if it is known, its version and its kinds.
#[derive(Debug, Drop)]
pub struct Offer {
    pub package: Option<Name>,
    pub version: Version,
    pub kinds: Many<Gvk>,
}

#[tactic(auto, unfolding(version_ranges::specs::Words::version_of))]
fn read_version(alloc: Global, text: &Text) -> Result<Version, Memory>
    requires { texts.is_version text.now ≡ true }
    ensures { IfOk result (λ version. words.version_of text.now ≡ Some (parts_of version)) }
{
    match Version::parse(alloc, text.as_str()) {
        Ok(version) => Ok(version),
        Err(error) => {
            if error == Error::from(AllocError) {
                return Err(Memory);
            }
            unreachable!()
        }
    }
}

/// The version that the bundle gives for its own package.
fn read_own_version(alloc: Global, bundle: &Bundle) -> Result<Version, Memory>
    requires { HasOneVersion bundle.now }
    ensures { IfOk result (λ version. texts.version_in bundle.now ≡ Some (parts_of version)) }
{
    match own_version(bundle) {
        Some(text) => read_version(alloc, text),
        None => unreachable!(),
    }
}

fn is_among(kind: &Gvk, kinds: &[Gvk]) -> bool
    ensures { result ≡ spec.is_among kind.now kinds.now }
{
    kinds.iter().any(|other| kind == other)
}

impl Offer {
    pub(crate) fn is_of(&self, name: &Name) -> bool
        ensures { result ≡ spec.is_of name.now self.now.«package» }
    {
        match &self.package {
            Some(package) => name == package,
            None => false,
        }
    }

    pub(crate) fn provides(&self, kind: &Gvk) -> bool
        ensures { result ≡ spec.is_among kind.now self.now.kinds }
    {
        is_among(kind, self.kinds.as_slice())
    }
}

pub(crate) fn copy_kind(kind: &Gvk) -> Result<Gvk, Memory>
    ensures { IfOk result (λ copy. copy ≡ kind.now) }
{
    Ok(kind.clone()?)
}

// The kinds that the properties give, each once.
fn kinds_of(alloc: Global, properties: &[Property]) -> Result<Many<Gvk>, Memory>
    ensures { IfOk result (λ kinds. kinds ≡ spec.kinds_of properties.now) }
{
    let mut kinds = Many::new(alloc);
    'properties: for property in properties {
        if let Property::Kind(kind) = property {
            if !is_among(kind, kinds.as_slice()) {
                kinds.push(copy_kind(kind)?)?;
            }
        }
    }
    Ok(kinds)
}

fn bundle_offer(alloc: Global, bundle: &Bundle) -> Result<Offer, Memory>
    requires { HasOneVersion bundle.now }
    ensures { IfOk result (λ offer. spec.offer_of bundle.now ≡ Some (spec.shown offer)) }
{
    Ok(Offer {
        package: Some(bundle.package.clone()?),
        version: read_own_version(alloc, bundle)?,
        kinds: kinds_of(alloc, bundle.properties.as_slice())?,
    })
}

/// What a bundle of the catalog offers, by its place in the list of bundles: its package, the version that it gives
/// for that package, and the kinds that it provides, each once where it first stands.
pub fn offer_of(alloc: Global, catalog: &CheckedCatalog, bundle: usize) -> Result<Offer, Memory>
    requires { bundle < length catalog.now.bundles }
    ensures { IfOk result (λ offer. option_and_then spec.offer_of (slice_get catalog.now.bundles bundle) ≡ Some (spec.shown offer)) }
{
    bundles_are_read();
    bundle_offer(alloc, &catalog.catalog().bundles.as_slice()[bundle])
}
