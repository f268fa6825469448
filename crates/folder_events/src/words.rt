// The words of faults, as texts.
ghost use Rattle.std.specs.Prelude.{◌≡◌, IfOk, IsUtf8};
ghost use Rattle.fault_words.specs.Words as words;
ghost use Rattle.catalog_lines.specs.Lines.{part, rule_words};

use catalog_lines::put_rule;
use catalog_stream::StreamFault;
use fault_words::{put_field, put_split, put_stream, put_unread};
use fbc_types::CheckFault;
use olm_base::{FieldKind, Memory, Name, Text};
use std::alloc::Global;

// The text of bytes that are one.
fn as_text(bytes: Vec<u8>) -> Text
    requires { IsUtf8 bytes.items }
    ensures { result ≡ bytes.items }
{
    match String::from_utf8(bytes) {
        Ok(text) => Text::from_string(text),
        Err(_) => unreachable!(),
    }
}

// Texts, names and parts of what a fault names are UTF-8. These calls do nothing; their clauses say it.

fn is_text(text: &Text)
    ensures { IsUtf8 text.now }
{
    let _bytes = text.as_slice();
}

#[tactic(auto, using(object_bodies::proofs::Ascii::name_is_text))]
fn is_name(name: &Name)
    ensures { IsUtf8 name.now }
{
    let _bytes = name.as_bytes();
}

#[tactic(auto, using(crate::proofs::Texts::no_part_is_text))]
fn is_part(name: &Option<Name>)
    ensures { IsUtf8 (part name.now) }
{
    if let Some(name) = name {
        is_name(name);
    }
}

/// A text that is no stream of blobs.
pub(crate) fn stream_text(alloc: Global, fault: StreamFault) -> Result<Text, Memory>
    ensures { IfOk result (λ text. text ≡ words.stream_words fault) }
{
    let mut bytes = Vec::new(alloc);
    put_stream(&mut bytes, alloc, fault)?;
    Ok(as_text(bytes))
}

/// A field of a blob that is not what it must be.
pub(crate) fn field_text(
    alloc: Global,
    blob: u32,
    path: &Text,
    kind: FieldKind,
) -> Result<Text, Memory>
    ensures { IfOk result (λ text. text ≡ words.field_words blob path.now kind) }
{
    let mut bytes = Vec::new(alloc);
    is_text(path);
    put_field(&mut bytes, alloc, blob, path, kind)?;
    Ok(as_text(bytes))
}

/// A folder's file that by itself is no stream.
pub(crate) fn split_text(alloc: Global, path: &Text, fault: StreamFault) -> Result<Text, Memory>
    ensures { IfOk result (λ text. text ≡ words.split_words path.now fault) }
{
    let mut bytes = Vec::new(alloc);
    is_text(path);
    put_split(&mut bytes, alloc, path, fault)?;
    Ok(as_text(bytes))
}

/// A file that isn't read.
pub(crate) fn unread_text(alloc: Global, path: &Text) -> Result<Text, Memory>
    ensures { IfOk result (λ text. text ≡ words.unread_words path.now) }
{
    let mut bytes = Vec::new(alloc);
    is_text(path);
    put_unread(&mut bytes, path)?;
    Ok(as_text(bytes))
}

/// A broken rule.
pub(crate) fn rule_text(alloc: Global, fault: &CheckFault) -> Result<Text, Memory>
    ensures { IfOk result (λ text. text ≡ rule_words fault.now) }
{
    let mut bytes = Vec::new(alloc);
    is_name(&fault.package);
    is_part(&fault.channel);
    is_part(&fault.item);
    put_rule(&mut bytes, alloc, fault)?;
    Ok(as_text(bytes))
}
