// Values of several parts: one behind another, options and lists.
ghost use Rattle.std.specs.Prelude.{◌≡◌, OnOk, ◌++◌, true};
ghost use Rattle.std.specs.List.{flat_map, list_all};
ghost use Rattle.payloads.specs.Form.{◌⊗◌, option_form, list_form, read_items};
ghost use Rattle.payloads.specs.Reading.{Reads};

use crate::stored::{ReadFault, Stored};
use olm_base::{Many, Memory};
use std::alloc::Global;

impl<A: Stored, B: Stored> Stored for (A, B) {
    ghost form = { A.form ⊗ B.form };

    fn write_to(&self, out: &mut Vec<u8>) -> Result<(), Memory> {
        self.0.write_to(out)?;
        self.1.write_to(out)
    }

    fn read_from(alloc: Global, bytes: &[u8]) -> Result<((A, B), &[u8]), ReadFault> {
        let (first, rest) = A::read_from(alloc, bytes)?;
        let (second, rest) = B::read_from(alloc, rest)?;
        Ok(((first, second), rest))
    }
}

impl<T: Stored> Stored for Option<T> {
    ghost form = { option_form T.form };

    #[tactic(auto, unfolding(crate::specs::Form::option_form))]
    fn write_to(&self, out: &mut Vec<u8>) -> Result<(), Memory> {
        match self {
            None => {
                out.push(0)?;
                Ok(())
            }
            Some(value) => {
                out.push(1)?;
                value.write_to(out)
            }
        }
    }

    #[tactic(auto, unfolding(crate::specs::Form::option_form))]
    fn read_from(alloc: Global, bytes: &[u8]) -> Result<(Option<T>, &[u8]), ReadFault> {
        match bytes {
            [0, rest @ ..] => Ok((None, rest)),
            [1, rest @ ..] => {
                let (value, rest) = T::read_from(alloc, rest)?;
                Ok((Some(value), rest))
            }
            _ => Err(ReadFault::NoSpelling),
        }
    }
}

// Appends the values, one behind the other.
fn write_items<T: Stored>(items: &[T], out: &mut Vec<u8>) -> Result<(), Memory>
    ensures fits { OnOk result (list_all T.form.fits items.now ≡ true) }
    ensures bytes { OnOk result (out.new.items ≡ out.old.items ++ flat_map T.form.spell items.now) }
{
    for item in items {
        item.write_to(out)?;
    }
    Ok(())
}

// Reads so many values, and takes room for each only when it is there.
fn read_items_at<T: Stored>(
    alloc: Global,
    count: u64,
    bytes: &[u8],
) -> Result<(Many<T>, &[u8]), ReadFault>
    ensures { Reads (read_items T.form count bytes.now) result }
{
    let mut items = Vec::new(alloc);
    let mut rest = bytes;
    for _ in 0..count {
        let (item, behind) = T::read_from(alloc, rest)?;
        items.push(item)?;
        rest = behind;
    }
    Ok((Many::from_vec(items), rest))
}

impl<T: Stored> Stored for Many<T> {
    ghost form = { list_form T.form };

    #[tactic(auto, unfolding(crate::specs::Form::list_form))]
    fn write_to(&self, out: &mut Vec<u8>) -> Result<(), Memory> {
        let items = self.as_slice();
        (items.len() as u64).write_to(out)?;
        write_items(items, out)
    }

    #[tactic(auto, unfolding(crate::specs::Form::list_form))]
    fn read_from(alloc: Global, bytes: &[u8]) -> Result<(Many<T>, &[u8]), ReadFault> {
        let (count, rest) = u64::read_from(alloc, bytes)?;
        read_items_at(alloc, count, rest)
    }
}
