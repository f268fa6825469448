// The blobs of a text, as a catalog.
ghost use Rattle.std.specs.Prelude.{◌≡◌, ◌≤◌, ◌+◌, ◌^◌, OnOk, OnErr, true, length};
ghost use Rattle.olm_base.specs.Outcome.{Ends, Gives};
ghost use Rattle.olm_base.specs.Fields as field;
ghost use Rattle.catalog_stream.specs.Stream as stream;
ghost use Rattle.catalog_stream.specs.Stream.{blobs_from};
ghost use Rattle.fbc_read.specs.Catalogs as spec;

use crate::additions::add_blob;
use crate::lengths::{cut_back, lengths_of};
use catalog_stream::{Blobs, StreamFault};
use fbc_types::Catalog;
use json_fields::Fault;
use olm_base::{FieldKind, Text};
use std::alloc::Global;
use thiserror::Error;

/// Why a text gives no catalog.
#[derive(Debug, Drop, PartialEq, Error)]
pub enum ReadFault {
    /// The text is no stream of blobs.
    #[error("{0}")]
    Stream(StreamFault),
    /// The value at this path of the blob of this number is not what it must be.
    #[error("blob {blob}: {path} {kind}", path = .path.as_str())]
    Field {
        blob: u32,
        path: Text,
        kind: FieldKind,
    },
    /// Memory ran out.
    #[error("out of memory")]
    Memory,
}

fn field_fault(blob: u32, fault: Fault) -> ReadFault
    ensures fault { Ends spec.is_free (spec.field_fault blob fault) result }
    ensures memory { field.is_free fault.kind ≡ true → result ≡ ReadFault.Memory }
{
    match fault.kind {
        FieldKind::Memory => ReadFault::Memory,
        kind => ReadFault::Field {
            blob,
            path: fault.path,
            kind,
        },
    }
}

fn stream_fault(fault: StreamFault) -> ReadFault
    ensures fault { Ends spec.is_free (spec.stream_fault fault) result }
    ensures memory { stream.is_free fault ≡ true → result ≡ ReadFault.Memory }
{
    match fault {
        StreamFault::Memory => ReadFault::Memory,
        other => ReadFault::Stream(other),
    }
}

/// Reads on into a catalog. What stands there at a fault begins with what stood there before.
fn read_on(
    alloc: Global,
    blobs: &mut Blobs<'_>,
    into: &mut Catalog,
    first: u32,
) -> Result<u32, ReadFault>
    requires first { first ≤ 2 ^ 31 }
    requires size { length blobs.old.text ≤ 2 ^ 31 }
    ensures answer { Gives spec.is_free (spec.reading into.old first (blobs_from blobs.old.text blobs.old.at)) (spec.read_view result into.new) }
    ensures err { OnErr result (spec.Extends into.old into.new) }
    ensures text { blobs.new.text ≡ blobs.old.text }
    ensures end { OnOk result (blobs.new.at ≡ length blobs.new.text) }
{
    let mut count = 0;
    'blobs: loop {
        match blobs.next(alloc) {
            Ok(Some(blob)) => match add_blob(alloc, &blob.value, into) {
                Ok(()) => {}
                Err(fault) => return Err(field_fault(first + count, fault)),
            },
            Ok(None) => return Ok(count),
            Err(fault) => return Err(stream_fault(fault)),
        }
        count += 1;
    }
}

/// Appends what the blobs give, each to the list of its schema in the order of the blobs, and answers how many blobs
/// there were, those of unknown schemas too. The first of them has the number `first`. Or the first fault, in the
/// order of the blobs and then of their fields; `into` is then as it was, and `blobs` may stand further on.
pub fn read_catalog(
    alloc: Global,
    blobs: &mut Blobs<'_>,
    into: &mut Catalog,
    first: u32,
) -> Result<u32, ReadFault>
    requires first { first ≤ 2 ^ 31 }
    requires size { length blobs.old.text ≤ 2 ^ 31 }
    ensures answer { Gives spec.is_free (spec.reading into.old first (blobs_from blobs.old.text blobs.old.at)) (spec.read_view result into.new) }
    ensures err { OnErr result (into.new ≡ into.old) }
    ensures text { blobs.new.text ≡ blobs.old.text }
    ensures end { OnOk result (blobs.new.at ≡ length blobs.new.text) }
{
    let lengths = lengths_of(into);
    match read_on(alloc, blobs, into, first) {
        Ok(count) => Ok(count),
        Err(fault) => {
            cut_back(alloc, into, lengths);
            Err(fault)
        }
    }
}
