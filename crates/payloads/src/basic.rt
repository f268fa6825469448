// Numbers, truth values and texts.
ghost use Rattle.std.specs.Prelude.{◌≡◌, OnOk};
ghost use Rattle.payloads.specs.Form.{number_form, short_form, signed_form, truth_form, bytes_form, text_form, name_form, read_plain};
ghost use Rattle.payloads.specs.Reading.{Appends, Lends, Reads};

use crate::stored::{ReadFault, Stored};
use olm_base::{Bytes, Memory, Name, NameFault, Text};
use std::alloc::Global;

impl Stored for u64 {
    ghost form = { number_form };

    #[tactic(auto, unfolding(crate::specs::Form::number_form))]
    fn write_to(&self, out: &mut Vec<u8>) -> Result<(), Memory> {
        let number = *self;
        out.extend_from_slice(&number.to_be_bytes())?;
        Ok(())
    }

    #[tactic(auto, unfolding(crate::specs::Form::number_form))]
    fn read_from(_alloc: Global, bytes: &[u8]) -> Result<(u64, &[u8]), ReadFault> {
        if bytes.len() < 8 {
            return Err(ReadFault::NoSpelling);
        }
        let (front, rest) = bytes.split_at(8);
        let number = u64::from_be_bytes([
            front[0], front[1], front[2], front[3], front[4], front[5], front[6], front[7],
        ]);
        Ok((number, rest))
    }
}

impl Stored for u32 {
    ghost form = { short_form };

    #[tactic(auto, unfolding(crate::specs::Form::short_form))]
    fn write_to(&self, out: &mut Vec<u8>) -> Result<(), Memory> {
        let number = *self;
        (number as u64).write_to(out)
    }

    #[tactic(auto, unfolding(crate::specs::Form::short_form))]
    fn read_from(alloc: Global, bytes: &[u8]) -> Result<(u32, &[u8]), ReadFault> {
        let (number, rest) = u64::read_from(alloc, bytes)?;
        if number < 1 << 32 {
            Ok((number as u32, rest))
        } else {
            Err(ReadFault::NoSpelling)
        }
    }
}

impl Stored for i64 {
    ghost form = { signed_form };

    #[tactic(auto, unfolding(crate::specs::Form::signed_form))]
    fn write_to(&self, out: &mut Vec<u8>) -> Result<(), Memory> {
        let number = *self;
        number.cast_unsigned().write_to(out)
    }

    #[tactic(auto, unfolding(crate::specs::Form::signed_form))]
    fn read_from(alloc: Global, bytes: &[u8]) -> Result<(i64, &[u8]), ReadFault> {
        let (number, rest) = u64::read_from(alloc, bytes)?;
        Ok((number.cast_signed(), rest))
    }
}

impl Stored for bool {
    ghost form = { truth_form };

    #[tactic(auto, unfolding(crate::specs::Form::truth_form))]
    fn write_to(&self, out: &mut Vec<u8>) -> Result<(), Memory> {
        out.push(*self as u8)?;
        Ok(())
    }

    #[tactic(auto, unfolding(crate::specs::Form::truth_form))]
    fn read_from(_alloc: Global, bytes: &[u8]) -> Result<(bool, &[u8]), ReadFault> {
        read_plain_at(&[false, true], bytes)
    }
}

// Reads a variant that holds nothing, by its place among all.
pub fn read_plain_at<'a, T: Copy>(
    variants: &[T],
    bytes: &'a [u8],
) -> Result<(T, &'a [u8]), ReadFault>
    ensures { Reads (read_plain variants.now bytes.now) result }
{
    match bytes {
        [] => Err(ReadFault::NoSpelling),
        [number, rest @ ..] => match variants.get(*number as usize) {
            Some(variant) => Ok((*variant, rest)),
            None => Err(ReadFault::NoSpelling),
        },
    }
}

// Appends a length and the bytes.
#[tactic(auto, unfolding(crate::specs::Form::bytes_form))]
fn write_bytes(bytes: &[u8], out: &mut Vec<u8>) -> Result<(), Memory>
    ensures { OnOk result (Appends bytes_form bytes.now out.old.items out.new.items) }
{
    (bytes.len() as u64).write_to(out)?;
    out.extend_from_slice(bytes)?;
    Ok(())
}

// The bytes behind a length, and those behind them. Nothing is taken for them before they are there.
#[tactic(auto, unfolding(crate::specs::Form::bytes_form))]
fn bytes_at(alloc: Global, bytes: &[u8]) -> Result<(&[u8], &[u8]), ReadFault>
    ensures { Lends (bytes_form.read bytes.now) result }
{
    let (length, rest) = u64::read_from(alloc, bytes)?;
    if (rest.len() as u64) < length {
        return Err(ReadFault::NoSpelling);
    }
    Ok(rest.split_at(length as usize))
}

impl Stored for Bytes {
    ghost form = { bytes_form };

    fn write_to(&self, out: &mut Vec<u8>) -> Result<(), Memory> {
        write_bytes(self.as_slice(), out)
    }

    fn read_from(alloc: Global, bytes: &[u8]) -> Result<(Bytes, &[u8]), ReadFault> {
        let (front, rest) = bytes_at(alloc, bytes)?;
        Ok((Bytes::from_vec(Vec::from_slice(alloc, front)?), rest))
    }
}

impl Stored for Name {
    ghost form = { name_form };

    #[tactic(auto, unfolding(crate::specs::Form::name_form))]
    fn write_to(&self, out: &mut Vec<u8>) -> Result<(), Memory> {
        write_bytes(self.as_bytes(), out)
    }

    #[tactic(auto, unfolding(crate::specs::Form::name_form))]
    fn read_from(alloc: Global, bytes: &[u8]) -> Result<(Name, &[u8]), ReadFault> {
        let (front, rest) = bytes_at(alloc, bytes)?;
        match Name::new(alloc, front) {
            Ok(name) => Ok((name, rest)),
            Err(NameFault::Bad) => Err(ReadFault::NoSpelling),
            Err(NameFault::Memory) => Err(ReadFault::Memory),
        }
    }
}

impl Stored for Text {
    ghost form = { text_form };

    #[tactic(auto, unfolding(crate::specs::Form::text_form))]
    fn write_to(&self, out: &mut Vec<u8>) -> Result<(), Memory> {
        write_bytes(self.as_slice(), out)
    }

    #[tactic(auto, unfolding(crate::specs::Form::text_form))]
    fn read_from(alloc: Global, bytes: &[u8]) -> Result<(Text, &[u8]), ReadFault> {
        let (front, rest) = bytes_at(alloc, bytes)?;
        match str::from_utf8(front) {
            Ok(text) => match Text::from_str(alloc, text) {
                Ok(text) => Ok((text, rest)),
                Err(_) => Err(ReadFault::Memory),
            },
            Err(_) => Err(ReadFault::NoSpelling),
        }
    }
}
