// The bytes of a record, written and read.
ghost use Rattle.std.specs.Prelude.{◌≡◌, ◌<◌, ◌^◌, ◌++◌, ◌∷◌, [], true, length, IfOk};
ghost use Rattle.std.specs.Int.{w64, to_be_bytes};
ghost use Rattle.payloads.specs.Form.{bytes_form, number_form};
ghost use Rattle.cluster_file.specs.Files.{record_at, record_form};
ghost use Rattle.cluster_file.specs.Reading.{Lends, LendsBytes};
ghost use Rattle.cluster_file.specs.Writing.{piece};

use cluster_objects::Write;
use olm_base::{Bytes, Memory};
use payloads::{read_payload, write_payload};
use std::alloc::Global;

// The number that stands in front, and the bytes behind it.
#[tactic(auto, unfolding(payloads::specs::Form::number_form))]
fn number_at(bytes: &[u8]) -> Option<(u64, &[u8])>
    ensures { Lends (number_form.read bytes.now) result }
{
    if bytes.len() < 8 {
        return None;
    }
    let (front, rest) = bytes.split_at(8);
    let number = u64::from_be_bytes([
        front[0], front[1], front[2], front[3], front[4], front[5], front[6], front[7],
    ]);
    Some((number, rest))
}

// The bytes behind a length, and those behind them. None exactly where either passes the end.
#[tactic(auto, unfolding(payloads::specs::Form::bytes_form))]
fn bytes_at(bytes: &[u8]) -> Option<(&[u8], &[u8])>
    ensures { LendsBytes (bytes_form.read bytes.now) result }
{
    let Some((length, rest)) = number_at(bytes) else {
        return None;
    };
    if (rest.len() as u64) < length {
        return None;
    }
    Some(rest.split_at(length as usize))
}

/// The write of the record that stands in front, and the bytes from the next gate on. None exactly where the length,
/// the payload or the next gate passes the end, or the payload is no write. Whether the write expects its key's version
/// isn't asked here.
pub fn next_record(alloc: Global, bytes: &[u8]) -> Result<Option<(Write, &[u8])>, Memory>
    ensures { IfOk result (λ found. Lends (record_at bytes.now) found) }
{
    let Some((payload, rest)) = bytes_at(bytes) else {
        return Ok(None);
    };
    if rest.is_empty() {
        return Ok(None);
    }
    match read_payload(alloc, payload)? {
        Some(write) => Ok(Some((write, rest))),
        None => Ok(None),
    }
}

// A payload behind its length, and a closed gate.
fn closed_record(alloc: Global, payload: &[u8]) -> Result<Vec<u8>, Memory>
    ensures short { length payload.now < 2 ^ 64 }
    ensures bytes { IfOk result (λ v. v.items ≡ to_be_bytes w64 (length payload.now) ++ payload.now ++ 0 ∷ []) }
{
    let mut bytes = Vec::new(alloc);
    bytes.extend_from_slice(&(payload.len() as u64).to_be_bytes())?;
    bytes.extend_from_slice(payload)?;
    bytes.push(0)?;
    Ok(bytes)
}

/// What is written behind the last gate to add a write: its record, and a closed gate, 0. The write has a spelling.
pub fn record_piece(alloc: Global, write: &Write) -> Result<Bytes, Memory>
    ensures fits { IfOk result (λ bytes. record_form.fits write.now ≡ true) }
    ensures piece { IfOk result (λ bytes. bytes ≡ piece write.now 0) }
{
    let payload = write_payload(alloc, write)?;
    let bytes = closed_record(alloc, payload.as_slice())?;
    Ok(Bytes::from_vec(bytes))
}
