// How much a catalog holds.
ghost use Rattle.std.specs.Prelude.{◌≡◌, ◌++◌, OnOk, IfOk, codes};
ghost use Rattle.std.specs.Fmt.{decimal};
ghost use Rattle.catalog_lines.specs.Lines as spec;

use fbc_types::CheckedCatalog;
use olm_base::{Bytes, Memory};
use std::alloc::Global;

/// Writes a word and a number behind it.
fn put_count(out: &mut Vec<u8>, alloc: Global, word: &str, count: usize) -> Result<(), Memory>
    ensures { OnOk result (out.new.items ≡ out.old.items ++ (word.now ++ decimal count)) }
{
    let number = count.to_string(alloc)?;
    out.extend_from_slice(word.as_bytes())?;
    out.extend_from_slice(number.as_bytes())?;
    Ok(())
}

/// The line of a valid catalog: `packages 1 channels 2 bundles 3`, for instance.
pub fn counts_line(alloc: Global, catalog: &CheckedCatalog) -> Result<Bytes, Memory>
    ensures { IfOk result (λ line. line ≡ spec.counts_line catalog.now) }
{
    let catalog = catalog.catalog();
    let mut out = Vec::new(alloc);
    put_count(
        &mut out,
        alloc,
        "packages ",
        catalog.packages.as_slice().len(),
    )?;
    put_count(
        &mut out,
        alloc,
        " channels ",
        catalog.channels.as_slice().len(),
    )?;
    put_count(
        &mut out,
        alloc,
        " bundles ",
        catalog.bundles.as_slice().len(),
    )?;
    out.push(b'\n')?;
    Ok(Bytes::from_vec(out))
}
