// The upgrades in a channel.
ghost use Rattle.std.specs.Prelude.{◌≡◌, IfOk};
ghost use Rattle.std.specs.List.{flat_map};
ghost use Rattle.catalog_lines.specs.Lines as spec;
ghost use Rattle.catalog_lines.specs.Nodes as nodes;

use crate::nodes::nodes_of;
use crate::sources::node_lines;
use fbc_types::CheckedCatalog;
use olm_base::{Bytes, Memory, Name, NameFault};
use std::alloc::Global;
use upgrade_graph::{bundles_by_name, entries_in_order};

/// The name that a text is, if it is one.
fn as_name(alloc: Global, text: &[u8]) -> Result<Option<Name>, Memory>
    ensures { IfOk result (λ name. name ≡ nodes.as_name text.now) }
{
    match Name::new(alloc, text) {
        Ok(name) => Ok(Some(name)),
        Err(NameFault::Bad) => Ok(None),
        Err(NameFault::Memory) => Err(Memory),
    }
}

fn lines_of_channel(
    alloc: Global,
    catalog: &CheckedCatalog,
    package: &Name,
    channel: &Name,
) -> Result<Option<Bytes>, Memory>
    ensures { IfOk result (λ lines. lines ≡ spec.channel_lines catalog.now «package».now channel.now) }
{
    match entries_in_order(alloc, catalog, package, channel)? {
        Some(entries) => {
            let table = bundles_by_name(alloc, catalog.catalog().bundles.as_slice(), package)?;
            let names = entries.names(alloc)?;
            let all = nodes_of(alloc, &table, &entries, names.as_slice())?;
            Ok(Some(node_lines(alloc, all.as_slice())?))
        }
        None => Ok(None),
    }
}

/// A line for each entry of a channel in channel order: `argo.v2.0.0 2.0.0 <- argo.v1.0.0`, for instance, where
/// argo.v1.0.0 can be upgraded to argo.v2.0.0. None exactly where the package has no such channel.
///
/// It puts the entries in their order and the bundles into a table once. For n entries it then asks for each pair of
/// them whether one takes the other's place, which compares a name with what an entry replaces and skips and a version
/// with its range, and looks for a name in a set n * n times.
pub fn graph_lines(
    alloc: Global,
    catalog: &CheckedCatalog,
    package: &[u8],
    channel: &[u8],
) -> Result<Option<Bytes>, Memory>
    ensures { IfOk result (λ lines. lines ≡ spec.graph_lines catalog.now «package».now channel.now) }
{
    let Some(package) = as_name(alloc, package)? else {
        return Ok(None);
    };
    let Some(channel) = as_name(alloc, channel)? else {
        return Ok(None);
    };
    lines_of_channel(alloc, catalog, &package, &channel)
}
