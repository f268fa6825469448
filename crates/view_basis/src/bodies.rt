// The catalogs of bodies.
ghost use Rattle.std.specs.Prelude.{◌≡◌, ◌≤◌, IfOk, length};
ghost use Rattle.std.specs.Result.{result_ok};
ghost use Rattle.catalog_stream.specs.Stream.{blobs};
ghost use Rattle.fbc_read.specs.Blobs.{nothing};
ghost use Rattle.fbc_read.specs.Catalogs.{reading};
ghost use Rattle.fbc_read.specs.declared.bodies.TheConstants.{INPUT_LIMIT};
ghost use Rattle.fbc_check.specs.Checking.{checked};
ghost use Rattle.std.specs.Option.{option_map};
ghost use Rattle.view_basis.specs.Bodies.{valid_catalog};

use catalog_stream::Blobs;
use fbc_check::{CheckRefusal, check};
use fbc_read::{INPUT_LIMIT, ReadFault, read_catalog};
use fbc_types::{Catalog, CheckedCatalog};
use olm_base::Memory;
use std::alloc::Global;

// The catalog of a text that is read without fault.
fn read_text(alloc: Global, text: &[u8]) -> Result<Option<Catalog>, Memory>
    requires { length text.now ≤ INPUT_LIMIT }
    ensures { IfOk result (λ catalog. catalog ≡ option_map (λ read. read.catalog) (result_ok (reading nothing 0 (blobs text.now)))) }
{
    let mut catalog = Catalog::new(alloc);
    match read_catalog(alloc, &mut Blobs::new(text), &mut catalog, 0) {
        Ok(_) => Ok(Some(catalog)),
        Err(ReadFault::Memory) => Err(Memory),
        Err(ReadFault::Stream(_)) => Ok(None),
        Err(ReadFault::Field { .. }) => Ok(None),
    }
}

// The catalog, where it breaks no rule.
fn keep_valid(alloc: Global, catalog: Catalog) -> Result<Option<CheckedCatalog>, Memory>
    ensures { IfOk result (λ kept. kept ≡ result_ok (checked catalog)) }
{
    match check(alloc, catalog) {
        Ok(kept) => Ok(Some(kept)),
        Err(CheckRefusal::Memory) => Err(Memory),
        Err(CheckRefusal::Broken { .. }) => Ok(None),
    }
}

/// The catalog of a body, where it has at most [`INPUT_LIMIT`] bytes, is read without fault and breaks no rule.
#[tactic(auto, unfolding(crate::specs::Bodies::valid_catalog))]
pub fn catalog_of_body(alloc: Global, body: &[u8]) -> Result<Option<CheckedCatalog>, Memory>
    ensures { IfOk result (λ catalog. catalog ≡ valid_catalog body.now) }
{
    if body.len() as u64 > INPUT_LIMIT {
        return Ok(None);
    }
    match read_text(alloc, body)? {
        Some(catalog) => keep_valid(alloc, catalog),
        None => Ok(None),
    }
}
