// The pieces of lines.
ghost use Rattle.std.specs.Prelude.{◌≡◌, ◌++◌, OnOk};
ghost use Rattle.std.specs.Fmt.{decimal};
ghost use Rattle.derivations.specs.Text.{token};

use olm_base::Memory;
use std::alloc::Global;

/// Appends a text behind a space.
pub fn push_token(out: &mut Vec<u8>, text: &[u8]) -> Result<(), Memory>
    ensures { OnOk result (out.new.items ≡ out.old.items ++ token text.now) }
{
    out.push(b' ')?;
    out.extend_from_slice(text)?;
    Ok(())
}

/// Appends a number behind a space.
pub fn push_number(out: &mut Vec<u8>, alloc: Global, number: u64) -> Result<(), Memory>
    ensures { OnOk result (out.new.items ≡ out.old.items ++ token (decimal number)) }
{
    let digits = number.to_string(alloc)?;
    push_token(out, digits.as_bytes())
}
