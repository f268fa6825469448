//! Cases of catalogs: reads rows from the standard input, and prints each with what came of it.
//!
//! A row is a command with its words. If its line ends in a colon, further lines belong to it, up to one that is a
//! single dot. docs/table-programs.md has the commands.
#![tactic(auto)]

mod catalogs;
mod fields;
mod folders;
mod requirements;
mod upgrades;

use anyhow::{Result, bail, ensure};
use olm_io::{StdSource, read_all};
use std::alloc::Global;

/// The most bytes of all rows.
const ROWS_LIMIT: u64 = 1_048_576;

/// A row: its command, what stands behind that, and the lines below it.
#[derive(Clone, Copy)]
struct Row<'a> {
    command: &'a str,
    words: &'a str,
    lines: &'a str,
}

/// The row with these words and lines.
fn row_of<'a>(line: &'a str, lines: &'a str) -> Row<'a> {
    match line.split_once(' ') {
        Some((command, words)) => Row {
            command,
            words,
            lines,
        },
        None => Row {
            command: line,
            words: "",
            lines,
        },
    }
}

/// The first row of a text, and what stands behind it.
fn next_row(text: &str) -> Option<(&str, &str, &str)> {
    let (line, rest) = text.split_once('\n')?;
    if !line.ends_with(':') {
        return Some((line, "", rest));
    }
    let (row, rest) = text.split_once("\n.\n")?;
    match row.split_once('\n') {
        Some((line, lines)) => Some((line, lines, rest)),
        None => Some((row, "", rest)),
    }
}

fn run_catalog(rt: &impl Print, alloc: Global, base: &str, row: &Row<'_>) -> Result<()> {
    match row.command {
        "catalog:" => Ok(()),
        "read:" => catalogs::put_read(rt, alloc, base, row.lines),
        "same:" => catalogs::put_same(rt, alloc, row.lines),
        "check:" => catalogs::put_checked(rt, alloc, base, row.lines),
        "graph" => upgrades::put_graph(rt, alloc, base, row.words),
        "order" => upgrades::put_order(rt, alloc, base, row.words),
        "upgrades" => upgrades::put_upgrades(rt, alloc, base, row.words),
        "offer" => requirements::put_offer(rt, alloc, base, row.words),
        "passes" => requirements::put_passes(rt, alloc, base, row.words),
        _ => bail!("no such command"),
    }
}

fn run(rt: &impl Print, alloc: Global, base: &str, row: &Row<'_>) -> Result<()> {
    match row.command {
        "blobs" => fields::put_blobs(rt, alloc, row.words),
        "values" => fields::put_values(rt, alloc, row.words),
        "fields" => fields::put_fields(rt, alloc, row.words),
        "names" => fields::put_names(rt, alloc, row.words),
        "range" => fields::put_range(rt, alloc, row.words),
        "holds" => fields::put_holds(rt, alloc, row.words),
        "set" => fields::put_set(rt, alloc, row.words),
        "owned" => fields::put_owned(rt, alloc, row.words),
        "body" => folders::put_body(rt, alloc, row.words, row.lines),
        "failing" => folders::put_failing(rt, alloc, row.words, row.lines),
        _ => run_catalog(rt, alloc, base, row),
    }
}

/// Prints each row of a text with what came of it.
fn run_all(rt: &impl Print, alloc: Global, text: &str) -> Result<()> {
    let mut base = "";
    let mut rest = text;
    for _ in 0..text.len() {
        let Some((line, lines, after)) = next_row(rest) else {
            break;
        };
        rest = after;
        println!(rt; "{line}")?;
        if line.starts_with('#') || line.is_empty() {
            continue;
        }
        let row = row_of(line, lines);
        if row.command == "catalog:" {
            base = row.lines;
        }
        if let Err(fault) = run(rt, alloc, base, &row) {
            println!(rt; "  {fault}")?;
        }
    }
    ensure!(rest.is_empty(), "a row has no end");
    Ok(())
}

fn main(rt: HostRuntime) -> Result<()> {
    let mut input = StdSource::new(rt.stdin());
    let rows = read_all(rt.alloc(), &mut input, ROWS_LIMIT)?;
    let text = String::from_utf8_lossy(rt.alloc(), rows.as_slice())?;
    run_all(&rt, rt.alloc(), &text)
}
