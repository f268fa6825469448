// Reading a text as a catalog.
ghost use Rattle.std.specs.Prelude.{ℕ, ◌≡◌, ◌≤◌, length, true, IfOk, IfErr};
ghost use Rattle.catalog_stream.specs.Stream.{blobs};
ghost use Rattle.olm_base.specs.Outcome.{Gives};
ghost use Rattle.fbc_types.specs.Rules.{broken};
ghost use Rattle.fbc_read.specs.Blobs.{nothing};
ghost use Rattle.fbc_read.specs.Bodies.{input_limit};
ghost use Rattle.olm_cli.specs.Causes.{is_free, is_of_text};
ghost use Rattle.olm_cli.specs.Reading as spec;

use crate::causes::Cause;
use catalog_stream::Blobs;
use fbc_check::{CheckRefusal, check};
use fbc_read::{ReadFault, read_catalog};
use fbc_types::{Catalog, CheckedCatalog};
use std::alloc::Global;

/// A catalog that breaks no rule, and the number of its blobs.
#[derive(Debug, Drop)]
pub struct Valid {
    pub count: u32,
    pub catalog: CheckedCatalog,
}

fn cause_of(fault: ReadFault) -> Cause
    ensures { result ≡ spec.cause_of fault }
{
    match fault {
        ReadFault::Stream(found) => Cause::Stream(found),
        ReadFault::Field { blob, path, kind } => Cause::Field { blob, path, kind },
        ReadFault::Memory => Cause::NoMemory,
    }
}

/// The catalog of all the text's blobs, and their number.
pub fn catalog_of(alloc: Global, text: &[u8], into: &mut Catalog) -> Result<u32, Cause>
    requires begun { into.old ≡ nothing }
    requires within { length text.now ≤ input_limit }
    ensures answer { Gives is_free (spec.catalog_of text.now) (spec.read_view result into.new) }
    ensures count { IfOk result (λ count. count ≡ length (blobs text.now).blobs) }
    ensures kind { IfErr result (λ cause. is_of_text cause ≡ true) }
{
    let mut blobs = Blobs::new(text);
    match read_catalog(alloc, &mut blobs, into, 0) {
        Ok(count) => Ok(count),
        Err(fault) => Err(cause_of(fault)),
    }
}

fn unless_broken(alloc: Global, count: u32, catalog: Catalog) -> Result<Valid, Cause>
    ensures answer { Gives is_free (spec.unless_broken (record { count = count; catalog = catalog }) (broken catalog)) (spec.valid_view result) }
    ensures count { IfOk result (λ valid. valid.count ≡ count) }
    ensures kind { IfErr result (λ cause. is_of_text cause ≡ true) }
{
    match check(alloc, catalog) {
        Ok(catalog) => Ok(Valid { count, catalog }),
        Err(CheckRefusal::Broken { .. }) => Err(Cause::BrokenRules),
        Err(CheckRefusal::Memory) => Err(Cause::NoMemory),
    }
}

/// The catalog of all the text's blobs, if it breaks no rule.
pub fn valid_of(alloc: Global, text: &[u8]) -> Result<Valid, Cause>
    requires within { length text.now ≤ input_limit }
    ensures answer { Gives is_free (spec.valid_of text.now) (spec.valid_view result) }
    ensures count { IfOk result (λ valid. valid.count ≡ length (blobs text.now).blobs) }
    ensures kind { IfErr result (λ cause. is_of_text cause ≡ true) }
{
    let mut catalog = Catalog::new(alloc);
    match catalog_of(alloc, text, &mut catalog) {
        Ok(count) => unless_broken(alloc, count, catalog),
        Err(cause) => Err(cause),
    }
}
