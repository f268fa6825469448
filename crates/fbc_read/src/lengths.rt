// The lists of a catalog, made longer and cut back.
ghost use Rattle.std.specs.Prelude.{◌≡◌, ◌++◌, OnOk, OnErr, take, length};
ghost use Rattle.fbc_read.specs.Lengths as spec;

use fbc_types::Catalog;
use olm_base::{Many, Memory};
use std::alloc::Global;
use std::mem;

/// How long the lists of a catalog are.
#[derive(Clone, Copy, Debug, PartialEq, Eq)]
pub struct Lengths {
    pub packages: usize,
    pub channels: usize,
    pub bundles: usize,
    pub deprecations: usize,
    pub manifests: usize,
}

pub fn lengths_of(catalog: &Catalog) -> Lengths
    ensures { result ≡ spec.lengths_of catalog.now }
{
    Lengths {
        packages: catalog.packages.as_slice().len(),
        channels: catalog.channels.as_slice().len(),
        bundles: catalog.bundles.as_slice().len(),
        deprecations: catalog.deprecations.as_slice().len(),
        manifests: catalog.manifests.as_slice().len(),
    }
}

fn cut_list<T: Drop>(alloc: Global, list: &mut Many<T>, count: usize)
    ensures { list.new ≡ take count list.old }
{
    let mut items = mem::replace(list, Many::new(alloc)).into_vec();
    items.truncate(count);
    *list = Many::from_vec(items);
}

/// Cuts each list to its length here. It takes no memory.
pub fn cut_back(alloc: Global, catalog: &mut Catalog, lengths: Lengths)
    ensures { catalog.new ≡ spec.cut lengths catalog.old }
{
    cut_list(alloc, &mut catalog.packages, lengths.packages);
    cut_list(alloc, &mut catalog.channels, lengths.channels);
    cut_list(alloc, &mut catalog.bundles, lengths.bundles);
    cut_list(alloc, &mut catalog.deprecations, lengths.deprecations);
    cut_list(alloc, &mut catalog.manifests, lengths.manifests);
}

/// Appends all items, or none where memory runs out.
pub fn append<T: Drop>(alloc: Global, list: &mut Many<T>, more: Many<T>) -> Result<(), Memory>
    ensures ok { OnOk result (list.new ≡ list.old ++ more) }
    ensures err { OnErr result (list.new ≡ list.old) }
{
    let mut items = mem::replace(list, Many::new(alloc)).into_vec();
    let mut others = more.into_vec();
    let appended = items.append(&mut others);
    *list = Many::from_vec(items);
    match appended {
        Ok(()) => Ok(()),
        Err(_) => Err(Memory),
    }
}
