// The lines of a channel's entries, with the names from which each is an upgrade.
ghost use Rattle.std.specs.Prelude.{◌≡◌, ◌++◌, ℕ, List, All, OnOk, IfOk, map};
ghost use Rattle.std.specs.List.{flat_map};
ghost use Rattle.fbc_types.specs.Texts.{is_among};
ghost use Rattle.name_tables.specs.Sets.{has};
ghost use Rattle.catalog_lines.specs.Nodes as spec;

use crate::nodes::Node;
use name_tables::NameSet;
use olm_base::{Bytes, Memory, Name};
use std::alloc::Global;

/// An entry, and the set of the names that it can be upgraded to.
#[derive(Drop)]
struct Source<'a> {
    node: &'a Node,
    upgrades: NameSet<'a>,
}

fn set_of<'a>(alloc: Global, names: &'a [Name]) -> Result<NameSet<'a>, Memory>
    ensures { IfOk result (λ set. (name : List ℕ) → has set name ≡ is_among name names.now) }
{
    let mut set = NameSet::new(alloc);
    'names: for name in names {
        set.add(name)?;
    }
    Ok(set)
}

fn sources_of<'a>(alloc: Global, all: &'a [Node]) -> Result<Vec<Source<'a>>, Memory>
    ensures nodes { IfOk result (λ sources. map spec.node_of sources.items ≡ all.now) }
    ensures sets { IfOk result (λ sources. All spec.IsSource sources.items) }
{
    let mut sources = Vec::new(alloc);
    'nodes: for node in all {
        let upgrades = set_of(alloc, node.upgrades.as_slice())?;
        sources.push(Source { node, upgrades })?;
    }
    Ok(sources)
}

fn put_source<'a>(out: &mut Vec<u8>, name: &'a Name, other: &Source<'a>) -> Result<(), Memory>
    requires { spec.IsSource other.now }
    ensures { OnOk result (out.new.items ≡ out.old.items ++ spec.source_word name.now other.now.node.now) }
{
    if other.upgrades.has(name) {
        out.push(b' ')?;
        out.extend_from_slice(other.node.name.as_bytes())?;
    }
    Ok(())
}

fn put_sources<'a>(out: &mut Vec<u8>, name: &'a Name, others: &[Source<'a>]) -> Result<(), Memory>
    requires { All spec.IsSource others.now }
    ensures { OnOk result (out.new.items ≡ out.old.items ++ flat_map (spec.source_word name.now) (map spec.node_of others.now)) }
{
    'others: for other in others {
        put_source(out, name, other)?;
    }
    Ok(())
}

fn put_node<'a>(out: &mut Vec<u8>, all: &[Source<'a>], entry: &'a Node) -> Result<(), Memory>
    requires { All spec.IsSource all.now }
    ensures { OnOk result (out.new.items ≡ out.old.items ++ spec.node_line (map spec.node_of all.now) entry.now) }
{
    out.extend_from_slice(entry.name.as_bytes())?;
    out.push(b' ')?;
    out.extend_from_slice(entry.version.as_slice())?;
    out.extend_from_slice(b" <-")?;
    put_sources(out, &entry.name, all)?;
    out.push(b'\n')?;
    Ok(())
}

/// The lines of these entries, which are those of a channel.
pub(crate) fn node_lines(alloc: Global, all: &[Node]) -> Result<Bytes, Memory>
    ensures { IfOk result (λ lines. lines ≡ flat_map (spec.node_line all.now) all.now) }
{
    let sources = sources_of(alloc, all)?;
    let mut out = Vec::new(alloc);
    'entries: for entry in all {
        put_node(&mut out, sources.as_slice(), entry)?;
    }
    Ok(Bytes::from_vec(out))
}
