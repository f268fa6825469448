// The entries of a channel, each with its version and its upgrades.
ghost use Rattle.std.specs.Prelude.{◌≡◌, IfOk, map};
ghost use Rattle.std.specs.Option.{option_copied, option_map};
ghost use Rattle.semver.specs.Identifiers.{parts_of};
ghost use Rattle.version_ranges.specs.Words.{version_of};
ghost use Rattle.upgrade_graph.specs.Tables.{under};
ghost use Rattle.catalog_lines.specs.Nodes as spec;

use fbc_types::{Bundle, own_version};
use olm_base::{Many, Memory, Name, Text};
use semver::{Error, Version};
use std::alloc::{AllocError, Global};
use std::collections::BTreeMap;
use upgrade_graph::ChannelOrder;

/// An entry of a channel: its name, the text of its version, and the names of the channel that it can be upgraded to.
#[derive(Debug, Drop)]
pub(crate) struct Node {
    pub name: Name,
    pub version: Text,
    pub upgrades: Many<Name>,
}

/// The first version that the bundle of this name gives for its package.
fn version_text<'a>(table: &BTreeMap<Name, &'a Bundle>, name: &Name) -> Option<&'a Text>
    ensures { option_copied result ≡ spec.text_named (under table.now.entries) name.now }
{
    match table.get(name).copied() {
        Some(bundle) => own_version(bundle),
        None => None,
    }
}

/// The version that a text writes, if it writes one.
#[tactic(auto, unfolding(version_ranges::specs::Words::version_of))]
fn read_version(alloc: Global, text: &str) -> Result<Option<Version>, Memory>
    ensures { IfOk result (λ version. option_map parts_of version ≡ version_of text.now) }
{
    match Version::parse(alloc, text) {
        Ok(version) => Ok(Some(version)),
        Err(error) => {
            if error == Error::from(AllocError) {
                return Err(Memory);
            }
            Ok(None)
        }
    }
}

/// The upgrades from the entry of a name and the text of its version.
fn upgrades_at(
    alloc: Global,
    entries: &ChannelOrder<'_>,
    name: &Name,
    version: &Text,
) -> Result<Many<Name>, Memory>
    ensures { IfOk result (λ found. found ≡ spec.upgrades_at entries.now name.now version.now) }
{
    match read_version(alloc, version.as_str())? {
        Some(version) => entries.upgrades(alloc, name, &version),
        None => Ok(Many::new(alloc)),
    }
}

fn node_of(
    alloc: Global,
    table: &BTreeMap<Name, &Bundle>,
    entries: &ChannelOrder<'_>,
    name: &Name,
) -> Result<Node, Memory>
    ensures { IfOk result (λ found. found ≡ spec.node (under table.now.entries) entries.now name.now) }
{
    match version_text(table, name) {
        Some(version) => Ok(Node {
            name: name.clone()?,
            version: version.clone()?,
            upgrades: upgrades_at(alloc, entries, name, version)?,
        }),
        None => Ok(Node {
            name: name.clone()?,
            version: Text::from_str(alloc, "")?,
            upgrades: Many::new(alloc),
        }),
    }
}

/// The entries of these names, by a table of the bundles and the channel's entries in their order.
pub(crate) fn nodes_of(
    alloc: Global,
    table: &BTreeMap<Name, &Bundle>,
    entries: &ChannelOrder<'_>,
    names: &[Name],
) -> Result<Vec<Node>, Memory>
    ensures { IfOk result (λ found. found.items ≡ map (spec.node (under table.now.entries) entries.now) names.now) }
{
    let mut found = Vec::new(alloc);
    'names: for name in names {
        found.push(node_of(alloc, table, entries, name)?)?;
    }
    Ok(found)
}
