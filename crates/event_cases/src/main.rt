//! Cases of events, as a table: the standard input holds bodies of objects, texts of events, and runs of them over a
//! store and a folder in memory, and the standard output what they came to.
//!
//! The rows are those of `docs/table-programs.md`. What is wanted of each stands in the file `stdout`.
#![tactic(auto)]

mod event_rows;
mod object_rows;
mod rows;
mod run_rows;

use crate::event_rows::events_row;
use crate::object_rows::{manifest_row, object_row};
use crate::rows::{Stop, blanks, digits_of, parted};
use crate::run_rows::cluster_block;
use olm_io::{StdSource, read_all};
use std::alloc::Global;
use std::io;
use std::str::Lines;

/// The most bytes of a table.
const TABLE_LIMIT: u64 = 16_777_216;

/// A row, and those that belong to it.
fn block(alloc: Global, out: &mut String, row: &str, lines: &mut Lines<'_>) -> Result<(), Stop> {
    match parted(row) {
        ("object", body) => object_row(alloc, out, body.as_bytes()),
        ("object-digits", digits) => object_row(alloc, out, &digits_of(alloc, digits)?),
        ("object-blanks", count) => object_row(alloc, out, &blanks(alloc, count)?),
        ("manifest", words) => manifest_row(alloc, out, words),
        ("events", text) => events_row(alloc, out, text),
        ("cluster", words) => cluster_block(alloc, out, words, lines),
        (_, _) => Err(Stop::Row),
    }
}

/// All rows of a table. An empty row and one that begins with `#` are printed as they are.
fn table(alloc: Global, out: &mut String, text: &str) -> Result<(), Stop> {
    let mut lines = text.lines();
    for _ in 0..u64::MAX {
        let Some(row) = lines.next() else {
            break;
        };
        if row.is_empty() || row.starts_with('#') {
            writeln!(out, "{row}")?;
        } else {
            block(alloc, out, row, &mut lines)?;
        }
    }
    Ok(())
}

/// Prints what the rows came to, and why they end early, if they do.
fn tell(rt: &HostRuntime, text: &str) -> io::Result<()> {
    let mut out = String::new(rt.alloc());
    let end = match table(rt.alloc(), &mut out, text) {
        Ok(()) => "",
        Err(Stop::Memory) => "out of memory",
        Err(Stop::Row) => "a row that isn't understood",
    };
    print!(rt; "{out}{end}")
}

fn main(rt: HostRuntime) -> io::Result<()> {
    let mut input = StdSource::new(rt.stdin());
    let Ok(bytes) = read_all(rt.alloc(), &mut input, TABLE_LIMIT) else {
        return println!(rt; "no table was read");
    };
    match std::str::from_utf8(bytes.as_slice()) {
        Ok(text) => tell(&rt, text),
        Err(_) => println!(rt; "the table is no text"),
    }
}
