//! Cases of what a namespace of a cluster asks, as a table: the standard input holds rows, and the standard output what
//! they came to.
//!
//! The rows are those of `docs/table-programs.md`. What is wanted of each stands in the file `stdout`.
#![tactic(auto)]

mod answer_rows;
mod basis_rows;
mod problem_rows;
mod rows;
mod store_rows;

use crate::answer_rows::{asked_row, nothing_row, resolve_row, verify_row};
use crate::basis_rows::{body_row, spaces_row};
use crate::rows::Stop;
use crate::store_rows::{Case, put_row, text_row, view_row};
use olm_io::{StdSource, read_all};
use std::alloc::Global;
use std::io;

/// The most bytes of a table.
const TABLE_LIMIT: u64 = 16_777_216;

/// A row that is printed, with what it came to behind it.
fn told_row(
    alloc: Global,
    out: &mut String,
    case: &mut Case,
    command: &str,
    words: &str,
) -> Result<(), Stop> {
    match command {
        "asked" => asked_row(alloc, out, &case.text, words),
        "resolve" => resolve_row(alloc, out, &case.text, words),
        "verify" => verify_row(alloc, out, &case.text, words),
        "nothing" => nothing_row(alloc, out, words),
        "body" => body_row(alloc, out, &case.text),
        "spaces" => spaces_row(alloc, out, words),
        _ => view_row(alloc, out, &mut case.store, command, words),
    }
}

/// A row: a command, and what stands behind its space.
fn command_row(
    alloc: Global,
    out: &mut String,
    case: &mut Case,
    row: &str,
    command: &str,
    words: &str,
) -> Result<(), Stop> {
    match command {
        "new" => {
            *case = Case::new(alloc);
            Ok(())
        }
        "put" => put_row(alloc, case, words),
        _ => {
            writeln!(out, "{row}")?;
            told_row(alloc, out, case, command, words)
        }
    }
}

/// A row. An empty one and one that begins with `#` are printed as they are.
fn any_row(alloc: Global, out: &mut String, case: &mut Case, row: &str) -> Result<(), Stop> {
    if row.is_empty() || row.starts_with('#') {
        return Ok(writeln!(out, "{row}")?);
    }
    if row.starts_with('{') {
        return text_row(&mut case.text, row);
    }
    match row.split_once(' ') {
        Some((command, words)) => command_row(alloc, out, case, row, command, words),
        None => command_row(alloc, out, case, row, row, ""),
    }
}

/// All rows of a table.
fn table(alloc: Global, out: &mut String, text: &str) -> Result<(), Stop> {
    let mut case = Case::new(alloc);
    for row in text.lines() {
        any_row(alloc, out, &mut case, row)?;
    }
    Ok(())
}

/// Prints what the rows came to, and why they end early, if they do.
fn tell(rt: &HostRuntime, text: &str) -> io::Result<()> {
    let mut out = String::new(rt.alloc());
    let end = match table(rt.alloc(), &mut out, text) {
        Ok(()) => "",
        Err(Stop::Memory) => "out of memory\n",
        Err(Stop::Row) => "a row that isn't understood\n",
    };
    print!(rt; "{out}{end}")
}

fn main(rt: HostRuntime) -> io::Result<()> {
    let mut input = StdSource::new(rt.stdin());
    let Ok(bytes) = read_all(rt.alloc(), &mut input, TABLE_LIMIT) else {
        return println!(rt; "no table was read");
    };
    match std::str::from_utf8(bytes.as_slice()) {
        Ok(text) => tell(&rt, text),
        Err(_) => println!(rt; "the table is no text"),
    }
}
