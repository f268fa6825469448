// Rows of words, and the lines behind them.
ghost use Rattle.std.specs.Prelude.{◌≤◌, IfOk};

use object_store::{Miss, WRITE_LIMIT};
use olm_base::{Bytes, Many, Memory, Name, Text};
use std::alloc::{AllocError, AllocFailed, Global};
use std::str::{Lines, SplitWhitespace};

/// Why the table ends early.
#[derive(Clone, Copy, Debug)]
pub enum Stop {
    Memory,
    /// A row that isn't understood.
    Row,
}

impl From<Memory> for Stop {
    fn from(_: Memory) -> Stop {
        Stop::Memory
    }
}

impl From<AllocError> for Stop {
    fn from(_: AllocError) -> Stop {
        Stop::Memory
    }
}

impl<T: Drop> From<AllocFailed<T>> for Stop {
    fn from(_: AllocFailed<T>) -> Stop {
        Stop::Memory
    }
}

/// The next row of a block, up to a line with a point.
pub fn next_row<'a>(lines: &mut Lines<'a>) -> Option<&'a str> {
    match lines.next() {
        Some(".") | None => None,
        Some(row) => Some(row),
    }
}

/// A row's first word, and what stands behind the blank that ends it.
pub fn parted(row: &str) -> (&str, &str) {
    match row.split_once(' ') {
        Some(parts) => parts,
        None => (row, ""),
    }
}

/// The lines up to one with a point, each with its line feed.
pub fn next_lines(alloc: Global, lines: &mut Lines<'_>) -> Result<String, Stop> {
    let mut text = String::new(alloc);
    for _ in 0..u64::MAX {
        let Some(row) = next_row(lines) else {
            break;
        };
        text.push_str(row)?;
        text.push('\n')?;
    }
    Ok(text)
}

pub fn number_of(word: &str) -> Result<u64, Stop> {
    match word.parse::<u64>() {
        Ok(number) => Ok(number),
        Err(_) => Err(Stop::Row),
    }
}

/// The most writes that a store takes.
pub fn limit_of(word: &str) -> Result<u64, Stop>
    ensures { IfOk result (λ limit. limit ≤ WRITE_LIMIT) }
{
    let limit = number_of(word)?;
    if limit > WRITE_LIMIT {
        return Err(Stop::Row);
    }
    Ok(limit)
}

pub fn name_of(alloc: Global, word: &str) -> Result<Name, Stop> {
    match Name::new(alloc, word.as_bytes()) {
        Ok(name) => Ok(name),
        Err(_) => Err(Stop::Row),
    }
}

/// The bytes of hex digits.
pub fn digits_of(alloc: Global, digits: &str) -> Result<Vec<u8>, Stop> {
    match hex::decode(alloc, digits) {
        Ok(bytes) => Ok(bytes),
        Err(_) => Err(Stop::Row),
    }
}

/// So many blanks.
pub fn blanks(alloc: Global, count: &str) -> Result<Vec<u8>, Stop> {
    let count = number_of(count)?;
    if count > 100_000_000 {
        return Err(Stop::Row);
    }
    Ok(vec![in alloc; b' '; count as usize]?)
}

/// The numbers of the words that begin with this mark.
pub fn marked(alloc: Global, words: &str, mark: char) -> Result<Many<u64>, Stop> {
    let mut numbers = Vec::new(alloc);
    for word in words.split_whitespace() {
        if let Some(number) = word.strip_prefix(mark) {
            numbers.push(number_of(number)?)?;
        }
    }
    Ok(Many::from_vec(numbers))
}

// The miss of the word `-7`, a call that is lost, or `+7`, a put that is made all the same.
fn miss_of(word: &str) -> Result<Option<Miss>, Stop> {
    if let Some(number) = word.strip_prefix('-') {
        let call = number_of(number)?;
        Ok(Some(Miss {
            call,
            applied: false,
        }))
    } else if let Some(number) = word.strip_prefix('+') {
        let call = number_of(number)?;
        Ok(Some(Miss {
            call,
            applied: true,
        }))
    } else {
        Ok(None)
    }
}

/// The misses of the words `-7` and `+7`.
pub fn misses_of(alloc: Global, words: SplitWhitespace<'_>) -> Result<Many<Miss>, Stop> {
    let mut misses = Vec::new(alloc);
    for word in words {
        if let Some(miss) = miss_of(word)? {
            misses.push(miss)?;
        }
    }
    Ok(Many::from_vec(misses))
}

// A file of the row `PATH BODY`.
fn file_of(alloc: Global, row: &str) -> Result<(Text, Bytes), Stop> {
    let (path, body) = parted(row);
    let bytes = Bytes::from_vec(Vec::from_slice(alloc, body.as_bytes())?);
    Ok((Text::from_str(alloc, path)?, bytes))
}

/// Files, one a row, up to a line with a point.
pub fn next_files(alloc: Global, lines: &mut Lines<'_>) -> Result<Many<(Text, Bytes)>, Stop> {
    let mut files = Vec::new(alloc);
    for _ in 0..u64::MAX {
        let Some(row) = next_row(lines) else {
            break;
        };
        files.push(file_of(alloc, row)?)?;
    }
    Ok(Many::from_vec(files))
}

/// Appends bytes that are a text.
pub fn put_text(out: &mut String, bytes: &[u8]) -> Result<(), Stop> {
    match std::str::from_utf8(bytes) {
        Ok(text) => Ok(out.push_str(text)?),
        Err(_) => Ok(out.push('?')?),
    }
}
