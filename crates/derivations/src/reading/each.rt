// Items that stand one after the other, with one byte between them.
ghost use Rattle.std.specs.Prelude.{◌≡◌, ◌++◌, ◌∷◌, [], IfErr, OnOk, Result, Ok, Err, true, false};
ghost use Rattle.olm_base.specs.Outcome.{Gives};
ghost use Rattle.derivations.specs.Reading.{is_free_in_line, both, parts};
ghost use Rattle.derivations.specs.Reading as spec;
ghost use Rattle.derivations.specs.Found.{now};
ghost use Rattle.derivations.specs.declared.reading.tokens.LineFault.TheVariants.{Form};

use crate::reading::cuts::cut;
use crate::reading::tokens::{LineFault, Written};
use olm_base::Many;
use std::alloc::Global;

// The items so far, and whether a number among them was written wrong.
#[derive(Drop)]
pub(crate) struct Found<T> {
    items: Many<T>,
    is_wrong: bool,
}

// Takes one item more.
fn take<T: Written + Drop>(
    found: &mut Found<T>,
    alloc: Global,
    text: &[u8],
) -> Result<(), LineFault>
    ensures ok { OnOk result (now found.new ≡ both (λ xs x. xs ++ x ∷ []) (now found.old) (T.meaning text.now)) }
    ensures err { IfErr result (λ fault. is_free_in_line fault ≡ false → (fault ≡ Form) × (T.meaning text.now ≡ Err Form)) }
{
    match T::read(alloc, text) {
        Ok(item) => {
            found.items.push(item)?;
            Ok(())
        }
        Err(LineFault::Number) => {
            found.is_wrong = true;
            Ok(())
        }
        Err(fault) => Err(fault),
    }
}

pub(crate) fn each<T: Written + Drop>(
    alloc: Global,
    byte: u8,
    text: &[u8],
) -> Result<Many<T>, LineFault>
    ensures { Gives is_free_in_line (spec.each T.meaning (parts byte text.now)) result }
{
    let mut found = Found {
        items: Many::new(alloc),
        is_wrong: false,
    };
    let mut rest = text;
    'items: loop {
        match cut(byte, rest) {
            Some((item, after)) => {
                match take(&mut found, alloc, item) {
                    Ok(()) => {}
                    Err(fault) => return Err(fault),
                }
                rest = after;
            }
            None => break,
        }
    }
    match take(&mut found, alloc, rest) {
        Ok(()) => {}
        Err(fault) => return Err(fault),
    }
    if found.is_wrong {
        return Err(LineFault::Number);
    }
    Ok(found.items)
}
