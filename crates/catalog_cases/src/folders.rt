// The body of a folder.

use crate::fields::decoded;
use anyhow::{Result, bail};
use fbc_read::catalog_body;
use olm_base::{Bytes, Many, Text};
use olm_folder::{Folder, MemFolder, SureFolder};
use std::alloc::Global;

/// The most blanks of a file.
const BLANKS_LIMIT: usize = 67_108_864;

/// So many blanks, and a text behind them.
fn blanks(alloc: Global, count: &str, text: &str) -> Result<Bytes> {
    let count: usize = count.parse()?;
    if count > BLANKS_LIMIT {
        bail!("too many blanks");
    }
    let mut bytes = vec![in alloc; b' '; count]?;
    bytes.extend_from_slice(decoded(alloc, text)?.as_slice())?;
    Ok(Bytes::from_vec(bytes))
}

/// A file: its path, a number of blanks and the text behind them.
fn file_of(alloc: Global, line: &str) -> Result<(Text, Bytes)> {
    let Some((path, rest)) = line.split_once(' ') else {
        bail!("a path is wanted");
    };
    let (count, text) = rest.split_once(' ').unwrap_or((rest, ""));
    let bytes = blanks(alloc, count, text)?;
    Ok((Text::from_str(alloc, path)?, bytes))
}

fn files_of(alloc: Global, lines: &str) -> Result<Many<(Text, Bytes)>> {
    let mut files = Vec::new(alloc);
    for line in lines.lines() {
        files.push(file_of(alloc, line)?)?;
    }
    Ok(Many::from_vec(files))
}

/// What a folder gives, as its text or its length, or as what the fault says.
fn shown<F: Folder>(alloc: Global, folder: &mut F, under: &str) -> Result<String> {
    let under = Text::from_str(alloc, under)?;
    match catalog_body(alloc, folder, &under) {
        Ok(body) => shown_body(alloc, body.as_slice()),
        Err(fault) => Ok(format!(in alloc; "{fault}")?),
    }
}

fn shown_body(alloc: Global, body: &[u8]) -> Result<String> {
    if body.len() > 99 {
        return Ok(format!(in alloc; "{} bytes", body.len())?);
    }
    let text = String::from_utf8_lossy(alloc, body)?;
    Ok(format!(in alloc; "{text:?}")?)
}

fn of_sure(alloc: Global, under: &str, lines: &str) -> Result<String> {
    let mut folder = SureFolder::new(files_of(alloc, lines)?);
    shown(alloc, &mut folder, under)
}

fn of_failing(alloc: Global, under: &str, lines: &str, fails: Vec<u64>) -> Result<String> {
    let mut folder = MemFolder::new(files_of(alloc, lines)?, Many::from_vec(fails));
    shown(alloc, &mut folder, under)
}

/// `body UNDER:` prints the body of a folder of these files, which must be the same of both folders in memory.
pub fn put_body(rt: &impl Print, alloc: Global, words: &str, lines: &str) -> Result<()> {
    let under = words.strip_suffix(':').unwrap_or(words);
    let sure = of_sure(alloc, under, lines)?;
    let other = of_failing(alloc, under, lines, Vec::new(alloc))?;
    println!(rt; "  {sure}")?;
    if sure != other {
        bail!("and of the other folder {other}");
    }
    Ok(())
}

/// `failing CALL UNDER:` prints the body of a folder of these files, where the call of this number fails.
pub fn put_failing(rt: &impl Print, alloc: Global, words: &str, lines: &str) -> Result<()> {
    let words = words.strip_suffix(':').unwrap_or(words);
    let Some((call, under)) = words.split_once(' ') else {
        bail!("a call and a folder are wanted");
    };
    let call: u64 = call.parse()?;
    let shown = of_failing(alloc, under, lines, vec![in alloc; call]?)?;
    println!(rt; "  {shown}")?;
    Ok(())
}
