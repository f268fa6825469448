// Words of rows, and pieces of what is printed.
use olm_base::{Gvk, Memory, Name};
use std::alloc::{AllocError, AllocFailed, Global};

/// Why the table ends early.
#[derive(Clone, Copy, Debug)]
pub enum Stop {
    Memory,
    /// A row that isn't understood.
    Row,
}

impl From<Memory> for Stop {
    fn from(_: Memory) -> Stop {
        Stop::Memory
    }
}

impl From<AllocError> for Stop {
    fn from(_: AllocError) -> Stop {
        Stop::Memory
    }
}

impl<T: Drop> From<AllocFailed<T>> for Stop {
    fn from(_: AllocFailed<T>) -> Stop {
        Stop::Memory
    }
}

/// What stands before the first slash, and what stands behind it.
pub fn parts(words: &str) -> Result<(&str, &str), Stop> {
    match words.split_once('/') {
        Some(found) => Ok(found),
        None => Err(Stop::Row),
    }
}

pub fn number_of(word: &str) -> Result<u32, Stop> {
    match word.parse::<u32>() {
        Ok(number) => Ok(number),
        Err(_) => Err(Stop::Row),
    }
}

pub fn name_of(alloc: Global, word: &str) -> Result<Name, Stop> {
    match Name::new(alloc, word.as_bytes()) {
        Ok(name) => Ok(name),
        Err(_) => Err(Stop::Row),
    }
}

/// The text of bytes that are one.
pub fn shown(bytes: &[u8]) -> &str {
    match std::str::from_utf8(bytes) {
        Ok(text) => text,
        Err(_) => "?",
    }
}

/// A name that may be missing, or `-`.
pub fn opt_shown(name: &Option<Name>) -> &str {
    match name {
        Some(name) => shown(name.as_bytes()),
        None => "-",
    }
}

/// Appends a space and a name.
pub fn put_name(out: &mut String, name: &Name) -> Result<(), Stop> {
    out.push(' ')?;
    Ok(out.push_str(shown(name.as_bytes()))?)
}

/// Appends a kind behind a space.
pub fn put_kind(out: &mut String, kind: &Gvk) -> Result<(), Stop> {
    Ok(write!(
        out,
        " {}/{}/{}",
        kind.group.as_str(),
        shown(kind.version.as_bytes()),
        shown(kind.kind.as_bytes())
    )?)
}
