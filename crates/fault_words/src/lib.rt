//! The words that tell a fault of a text or of a folder, on `err` and as the reason for which an event is refused.
//! What they are stands in `specs/Words.antt`. Each function here puts such words behind the bytes of a list.
#![tactic(auto)]

ghost use Rattle.std.specs.Prelude.{◌≡◌, ◌++◌, OnOk};
ghost use Rattle.std.specs.Fmt.{decimal};
ghost use Rattle.fault_words.specs.Words as spec;

use catalog_stream::StreamFault;
use olm_base::{FieldKind, Memory, Text};
use std::alloc::Global;

/// A number in decimal digits.
pub fn put_number(bytes: &mut Vec<u8>, alloc: Global, number: u64) -> Result<(), Memory>
    ensures { OnOk result (bytes.new.items ≡ bytes.old.items ++ decimal number) }
{
    let digits = number.to_string(alloc)?;
    bytes.extend_from_slice(digits.as_bytes())?;
    Ok(())
}

fn put_placed(bytes: &mut Vec<u8>, alloc: Global, at: u64, what: &[u8]) -> Result<(), Memory>
    ensures { OnOk result (bytes.new.items ≡ bytes.old.items ++ spec.placed at what.now) }
{
    bytes.extend_from_slice(b"at ")?;
    put_number(bytes, alloc, at)?;
    bytes.extend_from_slice(b": ")?;
    bytes.extend_from_slice(what)?;
    Ok(())
}

/// A fault of a stream of blobs, with its place: `at 17: truncated`, for instance.
pub fn put_stream(bytes: &mut Vec<u8>, alloc: Global, fault: StreamFault) -> Result<(), Memory>
    ensures { OnOk result (bytes.new.items ≡ bytes.old.items ++ spec.stream_words fault) }
{
    match fault {
        StreamFault::NotObject { at } => put_placed(bytes, alloc, at, b"not an object"),
        StreamFault::TooDeep { at } => put_placed(bytes, alloc, at, b"too deep"),
        StreamFault::Truncated { at } => put_placed(bytes, alloc, at, b"truncated"),
        StreamFault::Syntax { at } => put_placed(bytes, alloc, at, b"syntax"),
        StreamFault::Memory => Err(Memory),
    }
}

fn kind_words(kind: FieldKind) -> &'static [u8]
    ensures { result.now ≡ spec.kind_words kind }
{
    match kind {
        FieldKind::Missing => b"missing",
        FieldKind::WrongType => b"wrong type",
        FieldKind::Empty => b"empty",
        FieldKind::BadName => b"bad name",
        FieldKind::OneOf => b"one of",
        FieldKind::Base64 => b"base64",
        FieldKind::Number => b"number",
        FieldKind::Memory => b"out of memory",
    }
}

/// A fault of the blob of this number, in words that stand behind it: `blob 3: no event`, for instance.
pub fn put_of_blob(bytes: &mut Vec<u8>, alloc: Global, blob: u32, what: &[u8]) -> Result<(), Memory>
    ensures { OnOk result (bytes.new.items ≡ bytes.old.items ++ spec.of_blob blob what.now) }
{
    bytes.extend_from_slice(b"blob ")?;
    put_number(bytes, alloc, u64::from(blob))?;
    bytes.extend_from_slice(b": ")?;
    bytes.extend_from_slice(what)?;
    Ok(())
}

/// A field of a blob that is not what it must be: `blob 2: .entries[0].name bad name`, for instance.
pub fn put_field(
    bytes: &mut Vec<u8>,
    alloc: Global,
    blob: u32,
    path: &Text,
    kind: FieldKind,
) -> Result<(), Memory>
    ensures { OnOk result (bytes.new.items ≡ bytes.old.items ++ spec.field_words blob path.now kind) }
{
    put_of_blob(bytes, alloc, blob, path.as_slice())?;
    bytes.extend_from_slice(b" ")?;
    bytes.extend_from_slice(kind_words(kind))?;
    Ok(())
}

/// A folder's file that by itself is no stream: `a/b.json at 17: truncated`, for instance.
pub fn put_split(
    bytes: &mut Vec<u8>,
    alloc: Global,
    path: &Text,
    fault: StreamFault,
) -> Result<(), Memory>
    ensures { OnOk result (bytes.new.items ≡ bytes.old.items ++ spec.split_words path.now fault) }
{
    bytes.extend_from_slice(path.as_slice())?;
    bytes.push(b' ')?;
    put_stream(bytes, alloc, fault)
}

fn put_around(bytes: &mut Vec<u8>, front: &[u8], path: &Text, behind: &[u8]) -> Result<(), Memory>
    ensures { OnOk result (bytes.new.items ≡ bytes.old.items ++ front.now ++ path.now ++ behind.now) }
{
    bytes.extend_from_slice(front)?;
    bytes.extend_from_slice(path.as_slice())?;
    bytes.extend_from_slice(behind)?;
    Ok(())
}

/// A file that isn't read: `file a/b.yaml isn't read`, for instance.
pub fn put_unread(bytes: &mut Vec<u8>, path: &Text) -> Result<(), Memory>
    ensures { OnOk result (bytes.new.items ≡ bytes.old.items ++ spec.unread_words path.now) }
{
    put_around(bytes, b"file ", path, b" isn't read")
}
