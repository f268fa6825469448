// What bundles ask for and offer, and which offers pass.
ghost use Rattle.std.specs.Prelude.{◌<◌, length};

use crate::catalogs::valid;
use anyhow::{Result, bail};
use fbc_types::CheckedCatalog;
use olm_base::{Memory, Name};
use op_properties::{Offer, Requirement, offer_of, passes, requirements};
use std::alloc::Global;

/// The place of the bundle of a name.
fn place_of(catalog: &CheckedCatalog, name: &str) -> Option<usize> {
    let bundles = catalog.catalog().bundles.as_slice();
    bundles
        .iter()
        .position(|bundle| bundle.name.as_bytes() == name.as_bytes())
}

/// The offers of all bundles; the last is that of an installed version of no known package.
fn offers_of(alloc: Global, catalog: &CheckedCatalog) -> Result<Vec<Offer>, Memory> {
    let mut offers = Vec::new(alloc);
    let count = catalog.catalog().bundles.as_slice().len();
    for index in 0..count {
        let mut offer = offer_of(alloc, catalog, index)?;
        if index + 1 == count {
            offer.package = None;
        }
        offers.push(offer)?;
    }
    Ok(offers)
}

/// Prints which of the offers meet a requirement.
fn put_meeting(rt: &impl Print, requirement: &Requirement, offers: &[Offer]) -> Result<()> {
    print!(rt; " ")?;
    for offer in offers {
        let word = if passes(requirement, offer) {
            "yes"
        } else {
            "no"
        };
        print!(rt; " {word}")?;
    }
    println!(rt; "")?;
    Ok(())
}

fn put_all(rt: &impl Print, alloc: Global, catalog: &CheckedCatalog, asking: usize) -> Result<()>
    requires { asking < length catalog.now.bundles }
{
    let offers = offers_of(alloc, catalog)?;
    let asked = requirements(alloc, catalog, asking)?;
    for requirement in asked.as_slice() {
        put_meeting(rt, requirement, &offers)?;
    }
    Ok(())
}

/// `passes NAME` prints a line for each requirement of the bundle of this name: whether each of the catalog's bundles
/// meets it, the last without its package.
pub fn put_passes(rt: &impl Print, alloc: Global, base: &str, name: &str) -> Result<()> {
    let catalog = valid(alloc, base)?;
    match place_of(&catalog, name) {
        Some(place) => {
            if place < catalog.catalog().bundles.as_slice().len() {
                put_all(rt, alloc, &catalog, place)?;
            }
            Ok(())
        }
        None => bail!("no such bundle"),
    }
}

fn put_package(rt: &impl Print, alloc: Global, package: &Option<Name>) -> Result<()> {
    match package {
        Some(name) => print!(rt; "  {}", String::from_utf8_lossy(alloc, name.as_bytes())?)?,
        None => print!(rt; "  none")?,
    }
    Ok(())
}

fn put_bundle(rt: &impl Print, alloc: Global, catalog: &CheckedCatalog, place: usize) -> Result<()>
    requires { place < length catalog.now.bundles }
{
    let offer = offer_of(alloc, catalog, place)?;
    put_package(rt, alloc, &offer.package)?;
    let kinds = offer.kinds.as_slice().len();
    println!(rt; " {} kinds {kinds}", offer.version)?;
    Ok(())
}

/// `offer NAME` prints what the bundle of this name offers: its package, its version and how many kinds.
pub fn put_offer(rt: &impl Print, alloc: Global, base: &str, name: &str) -> Result<()> {
    let catalog = valid(alloc, base)?;
    match place_of(&catalog, name) {
        Some(place) => {
            if place < catalog.catalog().bundles.as_slice().len() {
                put_bundle(rt, alloc, &catalog, place)?;
            }
            Ok(())
        }
        None => bail!("no such bundle"),
    }
}
