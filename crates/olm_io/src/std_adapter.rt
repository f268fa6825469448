// A source over a reader and a sink over a writer.
ghost use Rattle.std.specs.Prelude.{◌≡◌, ◌≢◌, Ok, Err, IfOk, OnOk, OnErr, IsErr, IsErrOf};
ghost use Rattle.std.specs.Io.{ReadsAtMost};
ghost use Rattle.std.specs.Io.KnownBytes.{ReadConsumes, Appends};
ghost use Rattle.olm_io.specs.Outside.{AppendsFront, HasCause, one_more};

use crate::{Failed, Outage, Sink, Source};
use std::io;
use std::io::{Read, Write};

/// A source over a reader, with a count of the reader's errors.
#[derive(Drop)]
pub struct StdSource<R: Read> {
    inner: R,
    faults: u64,
}

impl<R: Read> StdSource<R> {
    pub fn new(inner: R) -> StdSource<R>
        ensures { result ≡ record { inner = inner; faults = 0 } }
    {
        StdSource { inner, faults: 0 }
    }
}

impl<R: Read> Source for StdSource<R> {
    ghost left = { λ source. R.remaining source.inner };

    ghost faults = { λ source. source.faults };

    /// Reads once. Each error of the reader is a fault.
    fn read(&mut self, into: &mut [u8]) -> Result<usize, Failed>
        ensures bound { ReadsAtMost result into.new }
        ensures bytes { ReadConsumes (R.remaining self.old.inner) (R.remaining self.new.inner) result into.new }
        ensures ok { OnOk result (self.new.faults ≡ self.old.faults) }
        ensures err { OnErr result (self.new.faults ≡ one_more self.old.faults) }
        ensures cause { HasCause self.old.faults self.new.faults (IsErr result) }
    {
        let answer = self.inner.read(into);
        counted(answer, &mut self.faults)
    }
}

// What is answered of the reader's answer: its error is the only fault, and the end is none.
fn counted(answer: io::Result<usize>, faults: &mut u64) -> Result<usize, Failed>
    ensures ok { IfOk answer (λ count. result ≡ Ok count) }
    ensures same { OnOk answer (faults.new ≡ faults.old) }
    ensures err { OnErr answer (IsErr result) }
    ensures raised { OnErr answer (faults.new ≡ one_more faults.old) }
    ensures cause { HasCause faults.old faults.new (IsErr result) }
{
    match answer {
        Ok(count) => Ok(count),
        Err(_) => {
            *faults = faults.saturating_add(1);
            Err(Failed)
        }
    }
}

/// A sink over a writer, with a count of the writer's errors. A write that takes nothing is one
/// too.
#[derive(Drop)]
pub struct StdSink<W: Write> {
    inner: W,
    faults: u64,
}

impl<W: Write> StdSink<W> {
    pub fn new(inner: W) -> StdSink<W>
        ensures { result ≡ record { inner = inner; faults = 0 } }
    {
        StdSink { inner, faults: 0 }
    }
}

impl<W: Write> Sink for StdSink<W> {
    ghost held = { λ sink. W.contents sink.inner };

    ghost faults = { λ sink. sink.faults };

    /// Writes until the whole piece is taken, or a write fails. It never answers
    /// `Outage::Memory`.
    fn put(&mut self, piece: &[u8]) -> Result<(), Outage>
        ensures ok { OnOk result (Appends (W.contents self.old.inner) (W.contents self.new.inner) piece.now) }
        ensures same { OnOk result (self.new.faults ≡ self.old.faults) }
        ensures front { OnErr result (AppendsFront (W.contents self.old.inner) (W.contents self.new.inner) piece.now) }
        ensures raised { OnErr result (self.new.faults ≡ one_more self.old.faults) }
        ensures cause { HasCause self.old.faults self.new.faults (IsErrOf result Outage.Failed) }
        ensures no_memory { result ≢ Err Outage.Memory }
    {
        let mut rest = piece;
        while !rest.is_empty() {
            match self.inner.write(rest) {
                Ok(count) if count > 0 => rest = &rest[count..],
                _ => {
                    self.faults = self.faults.saturating_add(1);
                    return Err(Outage::Failed);
                }
            }
        }
        Ok(())
    }
}
