// The blobs of a text, as events.
ghost use Rattle.std.specs.Prelude.{◌≡◌, ◌≤◌, ◌^◌, true, length, All, Result, IfOk};
ghost use Rattle.serde_json.specs.View.{view};
ghost use Rattle.olm_base.specs.Outcome.{Ends, Gives};
ghost use Rattle.olm_base.specs.Fields as field;
ghost use Rattle.json_fields.specs.Faults as faults;
ghost use Rattle.catalog_stream.specs.Stream as stream;
ghost use Rattle.json_fields.specs.declared.fault.Fault.{Fault};
ghost use Rattle.event_script.specs.declared.events.Event.{Event};
ghost use Rattle.event_script.specs.Ranges.{IsInRange};
ghost use Rattle.event_script.specs.Running.{RunsNow};
ghost use Rattle.event_script.specs.Running as running;
ghost use Rattle.event_script.specs.Script as spec;

use crate::events::{
    Event, Word, act_event, approve_event, catalog_event, delete_event, event_word, has_kind,
    lease_event, look_event, ready_event, release_event, retry_event, settle_event, worker_event,
};
use catalog_stream::{Blob, Blobs, StreamFault};
use json_fields::Fault;
use olm_base::{Bytes, FieldKind, Many, Text};
use serde_json::Value;
use std::alloc::Global;
use thiserror::Error;

/// Why a text gives no events. Blobs are numbered from 0.
#[derive(Debug, Drop, PartialEq, Error)]
pub enum EventFault {
    /// The text is no stream of blobs.
    #[error("{0}")]
    Stream(StreamFault),
    /// The value at this path of the blob is not what it must be.
    #[error("blob {blob}: {path} {kind}", path = .path.as_str())]
    Field {
        blob: u32,
        path: Text,
        kind: FieldKind,
    },
    /// The blob names no event, and is no object to be applied.
    #[error("blob {blob}: no event")]
    NoEvent {
        blob: u32,
    },
    /// The blob names an event that there isn't.
    #[error("blob {blob}: unknown event")]
    UnknownEvent {
        blob: u32,
    },
    /// Memory ran out.
    #[error("out of memory")]
    Memory,
}

fn field_fault(blob: u32, fault: Fault) -> EventFault
    ensures fault { Ends spec.is_free (spec.field_fault blob fault) result }
    ensures memory { field.is_free fault.kind ≡ true → result ≡ EventFault.Memory }
{
    match fault.kind {
        FieldKind::Memory => EventFault::Memory,
        kind => EventFault::Field {
            blob,
            path: fault.path,
            kind,
        },
    }
}

fn stream_fault(fault: StreamFault) -> EventFault
    ensures fault { Ends spec.is_free (spec.stream_fault fault) result }
    ensures memory { stream.is_free fault ≡ true → result ≡ EventFault.Memory }
{
    match fault {
        StreamFault::Memory => EventFault::Memory,
        other => EventFault::Stream(other),
    }
}

fn numbered(blob: u32, found: Result<Event, Fault>) -> Result<Event, EventFault>
    ensures { (wanted : Result Event Fault) → Gives faults.is_free wanted found → Gives spec.is_free (spec.numbered blob wanted) result }
{
    match found {
        Ok(event) => Ok(event),
        Err(fault) => Err(field_fault(blob, fault)),
    }
}

fn read_named(alloc: Global, number: u32, word: Word, blob: &Value) -> Result<Event, EventFault>
    ensures { Gives spec.is_free (spec.named_event number word (view blob.now)) result }
{
    match word {
        Word::Delete => numbered(number, delete_event(alloc, blob)),
        Word::Approve => numbered(number, approve_event(alloc, blob)),
        Word::Catalog => numbered(number, catalog_event(alloc, blob)),
        Word::Ready => numbered(number, ready_event(alloc, blob)),
        Word::Retry => numbered(number, retry_event(alloc, blob)),
        Word::Worker => numbered(number, worker_event(alloc, blob)),
        Word::Look => numbered(number, look_event(alloc, blob)),
        Word::Act => numbered(number, act_event(alloc, blob)),
        Word::Settle => numbered(number, settle_event(alloc, blob)),
        Word::Restart => Ok(Event::Restart),
        Word::Release => numbered(number, release_event(alloc, blob)),
        Word::Lease => numbered(number, lease_event(alloc, blob)),
        Word::Other => Err(EventFault::UnknownEvent { blob: number }),
    }
}

/// Whether a run applies the event of this word by now.
fn runs_now(word: Word) -> bool
    ensures { result ≡ running.runs_now word }
{
    match word {
        Word::Delete
        | Word::Approve
        | Word::Catalog
        | Word::Ready
        | Word::Retry
        | Word::Restart
        | Word::Release => true,
        Word::Worker | Word::Look | Word::Act | Word::Settle | Word::Lease | Word::Other => false,
    }
}

fn read_run(alloc: Global, number: u32, word: Word, blob: &Value) -> Result<Event, EventFault>
    ensures { Gives spec.is_free (spec.run_named number word (view blob.now)) result }
{
    if !runs_now(word) {
        return Err(EventFault::UnknownEvent { blob: number });
    }
    read_named(alloc, number, word, blob)
}

fn read_unnamed(alloc: Global, number: u32, blob: &Value, bytes: &[u8]) -> Result<Event, EventFault>
    ensures { Gives spec.is_free (spec.unnamed_event number (view blob.now) bytes.now) result }
{
    if !has_kind(blob) {
        return Err(EventFault::NoEvent { blob: number });
    }
    match Vec::from_slice(alloc, bytes) {
        Ok(body) => Ok(Event::Apply {
            body: Bytes::from_vec(body),
        }),
        Err(_) => Err(EventFault::Memory),
    }
}

/// The event of a blob, which has these bytes.
fn read_event(alloc: Global, number: u32, blob: &Value, bytes: &[u8]) -> Result<Event, EventFault>
    ensures { Gives spec.is_free (spec.event_of number (view blob.now) bytes.now) result }
{
    match event_word(blob) {
        Some(word) => read_run(alloc, number, word, blob),
        None => read_unnamed(alloc, number, blob, bytes),
    }
}

/// A blob's own bytes.
fn blob_bytes<'t>(text: &'t [u8], blob: &Blob) -> &'t [u8]
    requires ordered { blob.now.start ≤ blob.now.end }
    requires within { blob.now.end ≤ length text.now }
    ensures { result.now ≡ spec.bytes_of text.now (stream.blob_view blob.now) }
{
    &text[blob.start as usize..blob.end as usize]
}

/// All events of a text, in the order of its blobs, or the first fault in the order of the text.
pub fn read_events(alloc: Global, text: &[u8]) -> Result<Many<Event>, EventFault>
    requires { length text.now ≤ 2 ^ 31 }
    ensures answer { Gives spec.is_free (spec.events_of text.now) result }
    ensures ranges { IfOk result (λ events. All IsInRange events) }
    ensures run { IfOk result (λ events. All RunsNow events) }
{
    let mut blobs = Blobs::new(text);
    let mut found = Vec::new(alloc);
    'blobs: loop {
        match blobs.next(alloc) {
            Ok(Some(blob)) => {
                let number = found.as_slice().len() as u32;
                match read_event(alloc, number, &blob.value, blob_bytes(text, &blob)) {
                    Ok(event) => match found.push(event) {
                        Ok(()) => {}
                        Err(_) => return Err(EventFault::Memory),
                    },
                    Err(fault) => return Err(fault),
                }
            }
            Ok(None) => return Ok(Many::from_vec(found)),
            Err(fault) => return Err(stream_fault(fault)),
        }
    }
}
