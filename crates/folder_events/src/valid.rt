// Whether a text is a valid catalog.
ghost use Rattle.std.specs.Prelude.{◌≡◌, ◌≢◌, ◌≤◌, [], ℕ, List, length, Err};
ghost use Rattle.olm_base.specs.Outcome.{Ends, Gives};
ghost use Rattle.fbc_types.specs.Rules.{broken};
ghost use Rattle.fbc_read.specs.Blobs.{nothing};
ghost use Rattle.fbc_read.specs.Bodies.{input_limit};
ghost use Rattle.user_events.specs.Reasons.{is_free};
ghost use Rattle.folder_events.specs.Catalogs as spec;

use crate::words::{field_text, rule_text, stream_text};
use catalog_stream::Blobs;
use fbc_check::{CheckRefusal, check};
use fbc_read::{ReadFault, read_catalog};
use fbc_types::{Catalog, CheckFault};
use olm_base::Bytes;
use std::alloc::Global;
use user_events::{Refusal, because};

fn read_refusal(alloc: Global, fault: &ReadFault) -> Refusal
    ensures { Ends is_free (spec.read_refusal fault.now) result }
{
    match fault {
        ReadFault::Stream(fault) => because(stream_text(alloc, *fault)),
        ReadFault::Field { blob, path, kind } => because(field_text(alloc, *blob, path, *kind)),
        ReadFault::Memory => Refusal::Memory,
    }
}

// The catalog of all blobs of a text.
fn catalog_of(alloc: Global, text: &[u8]) -> Result<Catalog, Refusal>
    requires within { length text.now ≤ input_limit }
    ensures { Gives is_free (spec.catalog_of text.now) result }
{
    let mut blobs = Blobs::new(text);
    let mut catalog = Catalog::new(alloc);
    match read_catalog(alloc, &mut blobs, &mut catalog, 0) {
        Ok(_count) => Ok(catalog),
        Err(fault) => Err(read_refusal(alloc, &fault)),
    }
}

// The refusal by the first of the rules that are broken.
fn first_broken(alloc: Global, faults: &[CheckFault]) -> Refusal
    requires { faults.now ≢ [] }
    ensures { (text : List ℕ) → Gives is_free (spec.unless_broken text faults.now) (Err result) }
{
    match faults {
        [fault, ..] => because(rule_text(alloc, fault)),
        [] => unreachable!(),
    }
}

// The text, if its catalog breaks no rule.
#[tactic(auto, using(crate::proofs::Broken::kept_text, crate::proofs::Broken::told_rules, crate::proofs::Broken::told_some))]
fn unless_broken(alloc: Global, text: Bytes, catalog: Catalog) -> Result<Bytes, Refusal>
    ensures { Gives is_free (spec.unless_broken text (broken catalog)) result }
{
    match check(alloc, catalog) {
        Ok(_catalog) => Ok(text),
        Err(CheckRefusal::Broken { catalog: _, faults }) => {
            Err(first_broken(alloc, faults.as_slice()))
        }
        Err(CheckRefusal::Memory) => Err(Refusal::Memory),
    }
}

/// The text, if it is a valid catalog.
pub(crate) fn valid(alloc: Global, text: Bytes) -> Result<Bytes, Refusal>
    requires within { length text ≤ input_limit }
    ensures { Gives is_free (spec.valid_text text) result }
{
    let catalog = catalog_of(alloc, text.as_slice())?;
    unless_broken(alloc, text, catalog)
}
