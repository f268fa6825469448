// Sources and sinks in memory that never fail.
ghost use Rattle.std.specs.Prelude.{◌≡◌, ◌≢◌, ◌++◌, [], List, ℕ, Some, Err, IfOk, OnOk, OnErr, IsOk, drop, take, min, length};

use crate::memory::fill;
use crate::{Failed, Outage, Sink, Source};
use olm_base::Bytes;
use std::alloc::Global;
use std::marker::Model;

/// A source of bytes that never fails. Contracts see it as the bytes that are left.
#[derive(Debug, Drop)]
pub struct SureSource {
    bytes: Bytes,
    at: usize,
}

impl Model for SureSource {
    ghost use Rattle.std.specs.Prelude.{List, ℕ, drop};

    ghost Value = { List ℕ };

    ghost view = { λ source. drop source.at source.bytes };
}

impl SureSource {
    pub fn new(bytes: Bytes) -> SureSource
        ensures bytes { result ≡ bytes }
        ensures sure { (source : List ℕ) → ⟦<SureSource as Source>⟧.faults source ≡ 0 }
    {
        SureSource { bytes, at: 0 }
    }
}

impl Source for SureSource {
    ghost left = { λ source. Some source };

    ghost faults = { λ source. 0 };

    /// Gives as many bytes as fit.
    fn read(&mut self, into: &mut [u8]) -> Result<usize, Failed>
        ensures sure { IsOk result }
        ensures count { IfOk result (λ count. count ≡ min (length into.old) (length self.old)) }
        ensures bytes { IfOk result (λ count. into.new ≡ take count self.old ++ drop count into.old) }
        ensures ok { IfOk result (λ count. self.new ≡ drop count self.old) }
    {
        let count = fill(self.bytes.as_slice(), self.at, into);
        self.at += count;
        Ok(count)
    }
}

/// A sink in memory that never fails but for memory. Contracts see it as the bytes that were put.
#[derive(Debug, Drop)]
pub struct SureSink {
    bytes: Vec<u8>,
}

impl Model for SureSink {
    ghost use Rattle.std.specs.Prelude.{List, ℕ};

    ghost Value = { List ℕ };

    ghost view = { λ sink. sink.bytes.items };
}

impl SureSink {
    pub fn new(alloc: Global) -> SureSink
        ensures bytes { result ≡ [] }
        ensures sure { (sink : List ℕ) → ⟦<SureSink as Sink>⟧.faults sink ≡ 0 }
    {
        SureSink {
            bytes: Vec::new(alloc),
        }
    }

    /// What was put.
    pub fn bytes(&self) -> &[u8]
        ensures { result.now ≡ self.now }
    {
        self.bytes.as_slice()
    }
}

impl Sink for SureSink {
    ghost held = { λ sink. Some sink };

    ghost faults = { λ sink. 0 };

    /// Appends the piece, if there is memory for it.
    fn put(&mut self, piece: &[u8]) -> Result<(), Outage>
        ensures sure { result ≢ Err Outage.Failed }
        ensures ok { OnOk result (self.new ≡ self.old ++ piece.now) }
        ensures memory { OnErr result (self.new ≡ self.old) }
    {
        match self.bytes.extend_from_slice(piece) {
            Ok(()) => Ok(()),
            Err(_) => Err(Outage::Memory),
        }
    }
}
