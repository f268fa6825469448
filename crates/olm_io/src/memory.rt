// Sources and sinks in memory, some of whose calls fail.
ghost use Rattle.std.specs.Prelude.{◌≡◌, ◌↔◌, ◌++◌, [], Some, true, IfOk, OnOk, OnErr, IsErr, IsErrOf, drop, take, min, length, is_err};
ghost use Rattle.olm_io.specs.InMemory.{is_listed};
ghost use Rattle.olm_io.specs.Outside.{HasCause, one_more};

use crate::{Failed, Outage, Sink, Source};
use olm_base::{Bytes, Many};
use std::alloc::Global;
use std::marker::Model;

/// A source of bytes, of which the calls of some numbers fail, counted from 0. All calls after
/// number 2^64 - 1 have that number.
#[derive(Debug, Drop)]
pub struct MemSource {
    bytes: Bytes,
    at: usize,
    call: u64,
    faults: u64,
    fails: Many<u64>,
}

impl Model for MemSource {
    ghost use Rattle.std.specs.Prelude.{drop};
    ghost use Rattle.olm_io.specs.InMemory.{MemSourceState};

    ghost Value = { MemSourceState };

    ghost view = { λ source. record {
      left = drop source.at source.bytes;
      call = source.call;
      faults = source.faults;
      fails = source.fails;
    } };
}

impl MemSource {
    /// A source of these bytes. A call whose number is in `fails` fails, and gives nothing.
    pub fn new(bytes: Bytes, fails: Many<u64>) -> MemSource
        ensures { result ≡ record { left = bytes; call = 0; faults = 0; fails = fails } }
    {
        MemSource {
            bytes,
            at: 0,
            call: 0,
            faults: 0,
            fails,
        }
    }
}

impl Source for MemSource {
    ghost left = { λ source. Some source.left };

    ghost faults = { λ source. source.faults };

    /// Gives as many bytes as fit, or fails exactly where the number of this call is listed; then `into` is as it was.
    fn read(&mut self, into: &mut [u8]) -> Result<usize, Failed>
        ensures fails { is_err result ≡ is_listed self.old.fails self.old.call }
        ensures count { IfOk result (λ count. count ≡ min (length into.old) (length self.old.left)) }
        ensures bytes { IfOk result (λ count. into.new ≡ take count self.old.left ++ drop count into.old) }
        ensures ok { IfOk result (λ count. self.new ≡ record self.old { left = drop count self.old.left; call = one_more self.old.call }) }
        ensures kept { OnErr result (into.new ≡ into.old) }
        ensures cause { HasCause self.old.faults self.new.faults (IsErr result) }
        ensures err { OnErr result (self.new ≡ record self.old { call = one_more self.old.call; faults = one_more self.old.faults }) }
    {
        let fails = is_listed(&self.fails, self.call);
        self.call = self.call.saturating_add(1);
        if fails {
            self.faults = self.faults.saturating_add(1);
            return Err(Failed);
        }
        let count = fill(self.bytes.as_slice(), self.at, into);
        self.at += count;
        Ok(count)
    }
}

// The call of this number fails.
fn is_listed(fails: &Many<u64>, call: u64) -> bool
    ensures { result ≡ is_listed fails.now call }
{
    fails.as_slice().contains(&call)
}

/// Copies as many of the bytes from a place on as fit, and answers their number.
pub(crate) fn fill(from: &[u8], at: usize, into: &mut [u8]) -> usize
    ensures count { result ≡ min (length into.old) (length (drop at from.now)) }
    ensures bytes { into.new ≡ take result (drop at from.now) ++ drop result into.old }
{
    if at >= from.len() {
        return 0;
    }
    let rest = &from[at..];
    let count = rest.len().min(into.len());
    into[..count].copy_from_slice(&rest[..count]);
    count
}

/// A sink in memory, of which the calls of some numbers fail, counted from 0. A call that answers
/// `Outage::Memory` isn't counted. All calls after number 2^64 - 1 have that number.
#[derive(Debug, Drop)]
pub struct MemSink {
    bytes: Vec<u8>,
    call: u64,
    faults: u64,
    fails: Many<u64>,
}

impl Model for MemSink {
    ghost use Rattle.olm_io.specs.InMemory.{MemSinkState};

    ghost Value = { MemSinkState };

    ghost view = { λ sink. record {
      held = sink.bytes.items;
      call = sink.call;
      faults = sink.faults;
      fails = sink.fails;
    } };
}

impl MemSink {
    /// A sink with nothing in it. A call whose number is in `fails` fails, and puts nothing.
    pub fn new(alloc: Global, fails: Many<u64>) -> MemSink
        ensures { result ≡ record { held = []; call = 0; faults = 0; fails = fails } }
    {
        MemSink {
            bytes: Vec::new(alloc),
            call: 0,
            faults: 0,
            fails,
        }
    }

    /// What was put.
    pub fn bytes(&self) -> &[u8]
        ensures { result.now ≡ self.now.held }
    {
        self.bytes.as_slice()
    }
}

impl Sink for MemSink {
    ghost held = { λ sink. Some sink.held };

    ghost faults = { λ sink. sink.faults };

    /// Appends the piece, or fails exactly where the number of this call is listed.
    fn put(&mut self, piece: &[u8]) -> Result<(), Outage>
        ensures fails { IsErrOf result Outage.Failed ↔ (is_listed self.old.fails self.old.call ≡ true) }
        ensures ok { OnOk result (self.new ≡ record self.old { held = self.old.held ++ piece.now; call = one_more self.old.call }) }
        ensures failed { IsErrOf result Outage.Failed → self.new ≡ record self.old { call = one_more self.old.call; faults = one_more self.old.faults } }
        ensures memory { IsErrOf result Outage.Memory → self.new ≡ self.old }
        ensures cause { HasCause self.old.faults self.new.faults (IsErrOf result Outage.Failed) }
    {
        if is_listed(&self.fails, self.call) {
            self.call = self.call.saturating_add(1);
            self.faults = self.faults.saturating_add(1);
            return Err(Outage::Failed);
        }
        if self.bytes.extend_from_slice(piece).is_err() {
            return Err(Outage::Memory);
        }
        self.call = self.call.saturating_add(1);
        Ok(())
    }
}
