// The payloads of a cluster's file: writes, and bases.
ghost use Rattle.std.specs.Prelude.{◌≡◌, ℕ, List, IfOk, IfSome, IfNone};
ghost use Rattle.payloads.specs.Form.{Spells, whole};
ghost use Rattle.payloads.specs.Objects.{write_form};
ghost use Rattle.payloads.specs.Slots.{base_form};
ghost use Rattle.cluster_objects.specs.declared.objects.Write.{Write as AnyWrite};
ghost use Rattle.cluster_history.specs.declared.slots.Base.{Base as AnyBase};

use crate::stored::{ReadFault, Stored};
use cluster_history::Base;
use cluster_objects::Write;
use olm_base::{Bytes, Memory};
use std::alloc::Global;

fn spelling_of<T: Stored>(alloc: Global, value: &T) -> Result<Bytes, Memory>
    ensures { IfOk result (λ bytes. Spells T.form value.now bytes) }
{
    let mut out = Vec::new(alloc);
    value.write_to(&mut out)?;
    Ok(Bytes::from_vec(out))
}

// The value that all of the bytes spell, if there is one.
fn spelled_by<T: Stored>(alloc: Global, bytes: &[u8]) -> Result<Option<T>, Memory>
    ensures { IfOk result (λ found. found ≡ whole T.form bytes.now) }
{
    match T::read_from(alloc, bytes) {
        Ok((value, [])) => Ok(Some(value)),
        Ok((_value, [_, ..])) => Ok(None),
        Err(ReadFault::NoSpelling) => Ok(None),
        Err(ReadFault::Memory) => Err(Memory),
    }
}

/// The payload of a write: its one spelling.
pub fn write_payload(alloc: Global, write: &Write) -> Result<Bytes, Memory>
    ensures { IfOk result (λ payload. Spells write_form write.now payload) }
{
    spelling_of(alloc, write)
}

/// The write whose payload these bytes are, and None exactly where they are no payload. Nothing may follow it.
pub fn read_payload(alloc: Global, payload: &[u8]) -> Result<Option<Write>, Memory>
    ensures exact { IfOk result (λ found. found ≡ whole write_form payload.now) }
    ensures found { IfOk result (λ found. IfSome found (λ write. Spells write_form write payload.now)) }
    ensures none { IfOk result (λ found. IfNone found ((write : AnyWrite) → ¬ Spells write_form write payload.now)) }
{
    spelled_by(alloc, payload)
}

/// The payload of a base: its one spelling.
pub fn write_base(alloc: Global, base: &Base) -> Result<Bytes, Memory>
    ensures { IfOk result (λ payload. Spells base_form base.now payload) }
{
    spelling_of(alloc, base)
}

/// The base whose payload these bytes are, and None exactly where they are no payload. Nothing may follow it. Whether
/// it is a base that a history may begin with isn't asked here.
pub fn read_base(alloc: Global, payload: &[u8]) -> Result<Option<Base>, Memory>
    ensures exact { IfOk result (λ found. found ≡ whole base_form payload.now) }
    ensures found { IfOk result (λ found. IfSome found (λ base. Spells base_form base payload.now)) }
    ensures none { IfOk result (λ found. IfNone found ((base : AnyBase) → ¬ Spells base_form base payload.now)) }
{
    spelled_by(alloc, payload)
}
