// The line on `err`.
ghost use Rattle.std.specs.Prelude.{◌≡◌, ◌≤◌, ◌⊎◌, true, IfOk, IsOk};
ghost use Rattle.olm_io.specs.Outside.{Appends, AppendsFront};
ghost use Rattle.olm_cli.specs.declared.causes.Cause.{Cause};
ghost use Rattle.olm_cli.specs.Lines as spec;

use crate::causes::Cause;
use catalog_stream::StreamFault;
use fault_words::{put_field, put_number, put_of_blob, put_split, put_stream, put_unread};
use olm_base::{FieldKind, Memory, Text};
use olm_io::{Outage, Sink};
use std::alloc::Global;

/// Hands a line to the sink, and says whether the whole was put.
pub(crate) fn tell<E: Sink>(err: &mut E, line: &[u8]) -> bool
    ensures line { AppendsFront (E.held err.old) (E.held err.new) line.now }
    ensures whole { result ≡ true → Appends (E.held err.old) (E.held err.new) line.now }
    ensures count { E.faults err.old ≤ E.faults err.new }
{
    match err.put(line) {
        Ok(()) => true,
        Err(Outage::Failed) => false,
        Err(Outage::Memory) => false,
    }
}

fn stream_line(alloc: Global, fault: StreamFault) -> Result<Vec<u8>, Memory>
    ensures { IfOk result (λ line. line.items ≡ spec.line_of (Cause.Stream fault)) }
{
    let mut bytes = Vec::from_slice(alloc, b"olmctl: ")?;
    put_stream(&mut bytes, alloc, fault)?;
    bytes.push(b'\n')?;
    Ok(bytes)
}

fn field_line(alloc: Global, blob: u32, path: &Text, kind: FieldKind) -> Result<Vec<u8>, Memory>
    ensures { IfOk result (λ line. line.items ≡ spec.line_of (Cause.Field blob path.now kind)) }
{
    let mut bytes = Vec::from_slice(alloc, b"olmctl: ")?;
    put_field(&mut bytes, alloc, blob, path, kind)?;
    bytes.push(b'\n')?;
    Ok(bytes)
}

fn split_line(alloc: Global, path: &Text, fault: StreamFault) -> Result<Vec<u8>, Memory>
    ensures { IfOk result (λ line. line.items ≡ spec.line_of (Cause.SplitFile path.now fault)) }
{
    let mut bytes = Vec::from_slice(alloc, b"olmctl: ")?;
    put_split(&mut bytes, alloc, path, fault)?;
    bytes.push(b'\n')?;
    Ok(bytes)
}

fn unread_line(alloc: Global, path: &Text) -> Result<Vec<u8>, Memory>
    ensures { IfOk result (λ line. line.items ≡ spec.line_of (Cause.FileNotRead path.now)) }
{
    let mut bytes = Vec::from_slice(alloc, b"olmctl: ")?;
    put_unread(&mut bytes, path)?;
    bytes.push(b'\n')?;
    Ok(bytes)
}

fn variables_line(alloc: Global, count: u64) -> Result<Vec<u8>, Memory>
    ensures { IfOk result (λ line. line.items ≡ spec.line_of (Cause.TooManyVariables count)) }
{
    let mut bytes = Vec::from_slice(alloc, b"olmctl: variables ")?;
    put_number(&mut bytes, alloc, count)?;
    bytes.push(b'\n')?;
    Ok(bytes)
}

fn no_event_line(alloc: Global, blob: u32) -> Result<Vec<u8>, Memory>
    ensures { IfOk result (λ line. line.items ≡ spec.line_of (Cause.NoEvent blob)) }
{
    let mut bytes = Vec::from_slice(alloc, b"olmctl: ")?;
    put_of_blob(&mut bytes, alloc, blob, b"no event")?;
    bytes.push(b'\n')?;
    Ok(bytes)
}

fn unknown_event_line(alloc: Global, blob: u32) -> Result<Vec<u8>, Memory>
    ensures { IfOk result (λ line. line.items ≡ spec.line_of (Cause.UnknownEvent blob)) }
{
    let mut bytes = Vec::from_slice(alloc, b"olmctl: ")?;
    put_of_blob(&mut bytes, alloc, blob, b"unknown event")?;
    bytes.push(b'\n')?;
    Ok(bytes)
}

fn damaged_line(alloc: Global, at: u64) -> Result<Vec<u8>, Memory>
    ensures { IfOk result (λ line. line.items ≡ spec.line_of (Cause.Damaged at)) }
{
    let mut bytes = Vec::from_slice(alloc, b"olmctl: damaged at ")?;
    put_number(&mut bytes, alloc, at)?;
    bytes.push(b'\n')?;
    Ok(bytes)
}

/// The line of a cause: it stands in the program, or it is made of the cause's parts.
#[derive(Drop)]
enum Line {
    Fixed(&'static [u8]),
    Made(Vec<u8>),
}

impl Line {
    fn as_bytes(&self) -> &[u8]
        ensures { result.now ≡ spec.line_bytes self.now }
    {
        match self {
            Line::Fixed(line) => line,
            Line::Made(line) => line.as_slice(),
        }
    }
}

fn line_of(alloc: Global, cause: &Cause) -> Result<Line, Memory>
    ensures line { IfOk result (λ line. spec.line_bytes line ≡ spec.line_of cause.now) }
    ensures words { cause.now ≡ Cause.BadWords → IsOk result }
{
    match cause {
        Cause::NoChoice => Ok(Line::Fixed(b"olmctl: no choice\n")),
        Cause::NotAccepted => Ok(Line::Fixed(b"olmctl: not accepted\n")),
        Cause::BrokenRules => Ok(Line::Fixed(b"olmctl: catalog rules\n")),
        Cause::NoChannel => Ok(Line::Fixed(b"olmctl: no channel\n")),
        Cause::BadWords => Ok(Line::Fixed(b"olmctl: words\n")),
        Cause::Stream(fault) => Ok(Line::Made(stream_line(alloc, *fault)?)),
        Cause::SplitFile { path, fault } => Ok(Line::Made(split_line(alloc, path, *fault)?)),
        Cause::FileNotRead { path } => Ok(Line::Made(unread_line(alloc, path)?)),
        Cause::Field { blob, path, kind } => {
            Ok(Line::Made(field_line(alloc, *blob, path, *kind)?))
        }
        Cause::NoEvent { blob } => Ok(Line::Made(no_event_line(alloc, *blob)?)),
        Cause::UnknownEvent { blob } => Ok(Line::Made(unknown_event_line(alloc, *blob)?)),
        Cause::FolderFailed => Ok(Line::Fixed(b"olmctl: folder failed\n")),
        Cause::InputFailed => Ok(Line::Fixed(b"olmctl: input failed\n")),
        Cause::DiskFailed => Ok(Line::Fixed(b"olmctl: disk failed\n")),
        Cause::OutputFailed => Ok(Line::Fixed(b"olmctl: output failed\n")),
        Cause::NoMemory => Ok(Line::Fixed(b"olmctl: out of memory\n")),
        Cause::BudgetSpent => Ok(Line::Fixed(b"")),
        Cause::Damaged { at } => Ok(Line::Made(damaged_line(alloc, *at)?)),
        Cause::TooLong => Ok(Line::Fixed(b"olmctl: limit 67108864\n")),
        Cause::TooManyVariables { count } => Ok(Line::Made(variables_line(alloc, *count)?)),
        Cause::StoreFull => Ok(Line::Fixed(b"olmctl: store full\n")),
    }
}

/// Tells the line of the cause for which a run ends. Where there is no memory to make it, the run ends for that.
pub fn tell_cause<E: Sink>(alloc: Global, cause: Cause, err: &mut E) -> Cause
    ensures line { AppendsFront (E.held err.old) (E.held err.new) (spec.line_of result) }
    ensures cause { (result ≡ cause) ⊎ (result ≡ Cause.NoMemory) }
    ensures words { cause ≡ Cause.BadWords → result ≡ Cause.BadWords }
    ensures count { E.faults err.old ≤ E.faults err.new }
{
    match line_of(alloc, &cause) {
        Ok(line) => {
            let _whole = tell(err, line.as_bytes());
            cause
        }
        Err(Memory) => {
            let _whole = tell(err, b"olmctl: out of memory\n");
            Cause::NoMemory
        }
    }
}
