// Catalogs: what is read, and which rules are broken.
ghost use Rattle.std.specs.Prelude.{◌≡◌, ◌≤◌};

use anyhow::{Result, bail, ensure};
use catalog_lines::{counts_line, fault_lines};
use catalog_stream::Blobs;
use fbc_check::{CheckRefusal, check};
use fbc_read::read_catalog;
use fbc_types::{Catalog, CheckedCatalog};
use olm_base::Bytes;
use std::alloc::Global;

/// The most bytes of a catalog here.
const CATALOG_LIMIT: usize = 1_048_576;

/// Reads a text on into a catalog, where its first blob has this number.
fn read_on(alloc: Global, text: &str, into: &mut Catalog, first: u32) -> Result<u32> {
    ensure!(text.len() <= CATALOG_LIMIT && first < 1000, "too long");
    let mut blobs = Blobs::new(text.as_bytes());
    Ok(read_catalog(alloc, &mut blobs, into, first)?)
}

/// The catalog of these lines, and behind them of those.
fn catalog_of(alloc: Global, base: &str, lines: &str) -> Result<Catalog> {
    let mut catalog = Catalog::new(alloc);
    let first = read_on(alloc, base, &mut catalog, 0)?;
    let _count = read_on(alloc, lines, &mut catalog, first)?;
    Ok(catalog)
}

/// The catalog of these lines, which must break no rule.
pub fn valid(alloc: Global, base: &str) -> Result<CheckedCatalog> {
    let catalog = catalog_of(alloc, base, "")?;
    match check(alloc, catalog) {
        Ok(checked) => Ok(checked),
        Err(_) => bail!("the catalog breaks a rule"),
    }
}

/// Prints lines, each behind two blanks.
pub fn put_lines(rt: &impl Print, alloc: Global, lines: &Bytes) -> Result<()> {
    let text = String::from_utf8_lossy(alloc, lines.as_slice())?;
    for line in text.lines() {
        println!(rt; "  {line}")?;
    }
    Ok(())
}

/// Prints the counts of a catalog, or the rules that it breaks.
fn put_verdict(rt: &impl Print, alloc: Global, catalog: Catalog) -> Result<()> {
    match check(alloc, catalog) {
        Ok(checked) => put_lines(rt, alloc, &counts_line(alloc, &checked)?),
        Err(CheckRefusal::Broken { catalog: _, faults }) => {
            put_lines(rt, alloc, &fault_lines(alloc, faults.as_slice())?)
        }
        Err(CheckRefusal::Memory) => bail!("out of memory"),
    }
}

/// `check:` prints the counts of the catalog with these lines behind it, or the rules that it breaks.
pub fn put_checked(rt: &impl Print, alloc: Global, base: &str, lines: &str) -> Result<()> {
    let catalog = catalog_of(alloc, base, lines)?;
    put_verdict(rt, alloc, catalog)
}

/// Whether a catalog is that of the base.
fn is_base(alloc: Global, base: &str, catalog: &Catalog) -> Result<bool> {
    let other = catalog_of(alloc, base, "")?;
    Ok(other == *catalog)
}

/// `read:` prints how many blobs these lines have, and the catalog with them; or the fault, and whether the catalog
/// is then as it was.
pub fn put_read(rt: &impl Print, alloc: Global, base: &str, lines: &str) -> Result<()> {
    let mut catalog = Catalog::new(alloc);
    let first = read_on(alloc, base, &mut catalog, 0)?;
    match read_on(alloc, lines, &mut catalog, first) {
        Ok(count) => println!(rt; "  {count} {catalog:?}")?,
        Err(fault) => {
            println!(rt; "  {fault}")?;
            if !is_base(alloc, base, &catalog)? {
                bail!("and the catalog is another");
            }
        }
    }
    Ok(())
}

/// `same:` prints whether its two lines give the same catalog.
pub fn put_same(rt: &impl Print, alloc: Global, lines: &str) -> Result<()> {
    let Some((one, other)) = lines.split_once('\n') else {
        bail!("two lines are wanted");
    };
    let catalog = catalog_of(alloc, one, "")?;
    if is_base(alloc, other, &catalog)? {
        println!(rt; "  same")?;
    } else {
        println!(rt; "  another")?;
    }
    Ok(())
}
