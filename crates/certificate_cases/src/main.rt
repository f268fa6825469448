//! Cases of problems, walks and certificates: reads rows from the standard input, and prints each with what came of it.
//!
//! A row is a command with its words. If its line ends in a colon, further lines belong to it, up to one that is a
//! single dot. docs/table-programs.md has the commands.
#![tactic(auto)]

mod certificates;
mod chains;
mod decisions;
mod problems;
mod walks;

use anyhow::{Result, bail, ensure};
use olm_io::{StdSource, read_all};
use op_constraints::Problem;
use std::alloc::Global;

/// The most bytes of all rows.
const ROWS_LIMIT: u64 = 67_108_864;

/// A row: its command, what follows the command, and the lines below it.
#[derive(Clone, Copy)]
struct Row<'a> {
    command: &'a str,
    words: &'a str,
    lines: &'a str,
}

/// The row with these words and lines.
fn row_of<'a>(line: &'a str, lines: &'a str) -> Row<'a> {
    match line.split_once(' ') {
        Some((command, words)) => Row {
            command,
            words,
            lines,
        },
        None => Row {
            command: line,
            words: "",
            lines,
        },
    }
}

/// The first row's line and the lines below it, and what follows the row.
fn next_row(text: &str) -> Option<(&str, &str, &str)> {
    let (line, rest) = text.split_once('\n')?;
    if !line.ends_with(':') {
        return Some((line, "", rest));
    }
    let (row, rest) = text.split_once("\n.\n")?;
    match row.split_once('\n') {
        Some((line, lines)) => Some((line, lines, rest)),
        None => Some((row, "", rest)),
    }
}

fn run_closed(rt: &impl Print, alloc: Global, problem: &Problem, row: &Row<'_>) -> Result<()> {
    if !problem.closed() {
        bail!("not closed");
    }
    match row.command {
        "problem:" => Ok(()),
        "meets" => walks::put_meets(rt, alloc, problem, row.words),
        "walk" => walks::put_walk(rt, alloc, problem, row.words),
        "first" => walks::put_first(rt, alloc, problem, row.words),
        "follow" => walks::put_follow(rt, alloc, problem),
        "constraints" => walks::put_constraints(rt, problem, row.words),
        "verify:" => certificates::put_verified(rt, alloc, problem, row.lines),
        "decide" => decisions::put_decided(rt, alloc, problem, row.words),
        "certificate" => decisions::put_certificate(rt, alloc, problem, row.words),
        "agree" => decisions::put_agreed(rt, alloc, problem, row.words),
        _ => bail!("no such command"),
    }
}

fn run(rt: &impl Print, alloc: Global, problem: &str, row: &Row<'_>) -> Result<()> {
    match row.command {
        "read" => certificates::put_read(rt, alloc, row.words),
        "lemmas" => certificates::put_lemmas(rt, alloc, row.words),
        "chain" => chains::put_chain(rt, alloc, row.words, row.lines),
        _ => {
            let problem = problems::problem_of(alloc, problem)?;
            run_closed(rt, alloc, &problem, row)
        }
    }
}

/// Prints each row of a text with what came of it.
fn run_all(rt: &impl Print, alloc: Global, text: &str) -> Result<()> {
    let mut problem = "";
    let mut rest = text;
    for _ in 0..text.len() {
        let Some((line, lines, after)) = next_row(rest) else {
            break;
        };
        rest = after;
        println!(rt; "{line}")?;
        if line.starts_with('#') || line.is_empty() {
            continue;
        }
        let row = row_of(line, lines);
        if row.command == "problem:" {
            problem = row.lines;
        }
        if let Err(fault) = run(rt, alloc, problem, &row) {
            println!(rt; "  {fault}")?;
        }
    }
    ensure!(rest.is_empty(), "a row has no end");
    Ok(())
}

fn main(rt: HostRuntime) -> Result<()> {
    let mut input = StdSource::new(rt.stdin());
    let rows = read_all(rt.alloc(), &mut input, ROWS_LIMIT)?;
    let text = String::from_utf8_lossy(rt.alloc(), rows.as_slice())?;
    run_all(&rt, rt.alloc(), &text)
}
