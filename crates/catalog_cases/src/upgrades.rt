// The order of a channel's entries, and the upgrades in it.

use crate::catalogs::{put_lines, valid};
use crate::fields::decoded;
use anyhow::{Result, bail};
use catalog_lines::graph_lines;
use fbc_types::CheckedCatalog;
use olm_base::Name;
use semver::Version;
use std::alloc::Global;
use upgrade_graph::{order, upgrades};

/// Prints names in one line.
fn put_names(rt: &impl Print, alloc: Global, names: &[Name]) -> Result<()> {
    if names.is_empty() {
        bail!("none");
    }
    print!(rt; " ")?;
    for name in names {
        print!(rt; " {}", String::from_utf8_lossy(alloc, name.as_bytes())?)?;
    }
    println!(rt; "")?;
    Ok(())
}

/// A channel, by its package and its own name.
#[derive(Drop)]
struct Place {
    package: Name,
    channel: Name,
}

fn place_of(alloc: Global, package: &str, channel: &str) -> Result<Place> {
    Ok(Place {
        package: Name::new(alloc, package.as_bytes())?,
        channel: Name::new(alloc, channel.as_bytes())?,
    })
}

fn ordered(rt: &impl Print, alloc: Global, catalog: &CheckedCatalog, place: &Place) -> Result<()> {
    match order(alloc, catalog, &place.package, &place.channel)? {
        Some(names) => put_names(rt, alloc, names.as_slice()),
        None => bail!("no such channel"),
    }
}

/// `order PACKAGE CHANNEL` prints the names of the channel's entries in channel order.
pub fn put_order(rt: &impl Print, alloc: Global, base: &str, words: &str) -> Result<()> {
    let Some((package, channel)) = words.split_once(' ') else {
        bail!("a package and a channel are wanted");
    };
    let place = place_of(alloc, package, channel)?;
    let catalog = valid(alloc, base)?;
    ordered(rt, alloc, &catalog, &place)
}

/// `graph PACKAGE CHANNEL` prints a line for each of the channel's entries, with what can be upgraded to it.
pub fn put_graph(rt: &impl Print, alloc: Global, base: &str, words: &str) -> Result<()> {
    let (package, channel) = words.split_once(' ').unwrap_or((words, ""));
    let channel = decoded(alloc, channel)?;
    let catalog = valid(alloc, base)?;
    match graph_lines(alloc, &catalog, package.as_bytes(), channel.as_slice())? {
        Some(lines) => put_lines(rt, alloc, &lines),
        None => bail!("no such channel"),
    }
}

fn upgraded(
    rt: &impl Print,
    alloc: Global,
    catalog: &CheckedCatalog,
    place: &Place,
    from: &str,
    version: &str,
) -> Result<()> {
    let from = Name::new(alloc, from.as_bytes())?;
    let version = Version::parse(alloc, version)?;
    let names = upgrades(
        alloc,
        catalog,
        &place.package,
        &place.channel,
        &from,
        &version,
    )?;
    put_names(rt, alloc, names.as_slice())
}

/// `upgrades PACKAGE CHANNEL FROM VERSION` prints the names of the upgrades from the bundle of that name and version.
pub fn put_upgrades(rt: &impl Print, alloc: Global, base: &str, words: &str) -> Result<()> {
    let words: Vec<&str> = words.split(' ').collect(alloc)?;
    match *words {
        [package, channel, from, version] => {
            let place = place_of(alloc, package, channel)?;
            let catalog = valid(alloc, base)?;
            upgraded(rt, alloc, &catalog, &place, from, version)
        }
        _ => bail!("a package, a channel, a name and a version are wanted"),
    }
}
