// Runs of events over a store and a folder in memory.
ghost use Rattle.std.specs.Prelude.{◌≡◌, ◌≤◌, ◌^◌, true, All, length};
ghost use Rattle.event_script.specs.Ranges.{IsInRange};
ghost use Rattle.event_script.specs.Running.{RunsNow};

use crate::object_rows::put_key;
use crate::rows::{
    Stop, blanks, digits_of, limit_of, marked, misses_of, name_of, next_files, next_lines,
    next_row, parted, put_text,
};
use cluster_lines::show_lines;
use cluster_objects::Write;
use event_runs::{Halt, run_events};
use event_script::{Event, read_events};
use object_store::{Cluster, ClusterFault, MemCluster, PutAnswer};
use olm_base::{Bytes, Name};
use olm_folder::MemFolder;
use olm_io::MemSink;
use payloads::read_payload;
use std::alloc::Global;
use std::str::Lines;
use user_events::{UserAnswer, apply};

// Why a run ends before its events do.
fn halt_word(halt: Halt) -> &'static str {
    match halt {
        Halt::OutputFailed => "the output failed\n",
        Halt::FolderFailed => "the folder failed\n",
        Halt::StoreFailed => "the store failed\n",
        Halt::Damaged { at: _ } => "damaged\n",
        Halt::Full => "full\n",
        Halt::Memory => "out of memory\n",
    }
}

// The lines of a run, and how it ended.
fn run_over(
    alloc: Global,
    out: &mut String,
    cluster: &mut MemCluster,
    folder: &mut MemFolder,
    sink: &mut MemSink,
    events: &[Event],
) -> Result<(), Stop>
    requires ready { cluster.old.ready ≡ true }
    requires ranges { All IsInRange events.now }
    requires run { All RunsNow events.now }
{
    let end = match run_events(alloc, events, cluster, folder, sink) {
        Ok(()) => "done\n",
        Err(halt) => halt_word(halt),
    };
    put_text(out, sink.bytes())?;
    Ok(out.push_str(end)?)
}

// `run >7`, and events up to a line with a point; the calls of the output with these numbers fail.
fn run_row(
    alloc: Global,
    out: &mut String,
    cluster: &mut MemCluster,
    folder: &mut MemFolder,
    words: &str,
    lines: &mut Lines<'_>,
) -> Result<(), Stop> {
    let text = next_lines(alloc, lines)?;
    let mut sink = MemSink::new(alloc, marked(alloc, words, '>')?);
    if text.len() > 1 << 31 {
        return Err(Stop::Row);
    }
    let events = match read_events(alloc, text.as_bytes()) {
        Ok(events) => events,
        Err(fault) => return Ok(writeln!(out, "{fault}")?),
    };
    if !cluster.is_ready() {
        return Ok(out.push_str("not ready\n")?);
    }
    run_over(alloc, out, cluster, folder, &mut sink, events.as_slice())
}

fn fault_word(fault: ClusterFault) -> &'static str {
    match fault {
        ClusterFault::Failed => "the store failed\n",
        ClusterFault::Damaged { at: _ } => "damaged\n",
        ClusterFault::Memory => "out of memory\n",
    }
}

fn put_shown(
    alloc: Global,
    out: &mut String,
    cluster: &mut MemCluster,
    namespace: &Name,
) -> Result<(), Stop>
    requires { cluster.old.ready ≡ true }
{
    match cluster.snapshot(alloc, namespace) {
        Ok(view) => put_text(out, &show_lines(alloc, &view)?),
        Err(fault) => Ok(out.push_str(fault_word(fault))?),
    }
}

// `show NAMESPACE`: the lines of its objects.
fn show_row(
    alloc: Global,
    out: &mut String,
    cluster: &mut MemCluster,
    word: &str,
) -> Result<(), Stop> {
    let namespace = name_of(alloc, word)?;
    if !cluster.is_ready() {
        return Ok(out.push_str("not ready\n")?);
    }
    put_shown(alloc, out, cluster, &namespace)
}

fn put_word(answer: PutAnswer) -> &'static str {
    match answer {
        PutAnswer::Done { version: _ } => "done\n",
        PutAnswer::Conflict { found: _ } => "conflict\n",
        PutAnswer::Full => "full\n",
        PutAnswer::Failed => "the store failed\n",
        PutAnswer::Memory => "out of memory\n",
    }
}

fn put_write(
    alloc: Global,
    out: &mut String,
    cluster: &mut MemCluster,
    write: Write,
) -> Result<(), Stop> {
    if !cluster.is_ready() {
        return Ok(out.push_str("not ready\n")?);
    }
    Ok(out.push_str(put_word(cluster.put(alloc, write)))?)
}

// `put DIGITS`: the write whose payload these are.
fn put_row(
    alloc: Global,
    out: &mut String,
    cluster: &mut MemCluster,
    digits: &str,
) -> Result<(), Stop> {
    let payload = digits_of(alloc, digits)?;
    match read_payload(alloc, &payload)? {
        Some(write) => put_write(alloc, out, cluster, write),
        None => Err(Stop::Row),
    }
}

fn put_answer(alloc: Global, out: &mut String, answer: &UserAnswer) -> Result<(), Stop> {
    match answer {
        UserAnswer::Done { key, version } => {
            put_key(alloc, out, key)?;
            Ok(writeln!(out, " version {version}")?)
        }
        UserAnswer::Refused { reason } => Ok(writeln!(out, "refused {}", reason.as_str())?),
        UserAnswer::Full => Ok(out.push_str("full\n")?),
        UserAnswer::StoreFailed => Ok(out.push_str("the store failed\n")?),
        UserAnswer::FolderFailed => Ok(out.push_str("the folder failed\n")?),
        UserAnswer::Memory => Ok(out.push_str("out of memory\n")?),
    }
}

// `apply DIGITS`, `apply-blanks N`: a body that no text of events may give.
fn apply_row(
    alloc: Global,
    out: &mut String,
    cluster: &mut MemCluster,
    body: Vec<u8>,
) -> Result<(), Stop> {
    if !cluster.is_ready() {
        return Ok(out.push_str("not ready\n")?);
    }
    let answer = apply(alloc, &Bytes::from_vec(body), cluster);
    put_answer(alloc, out, &answer)
}

fn reopen_row(alloc: Global, out: &mut String, cluster: &mut MemCluster) -> Result<(), Stop> {
    match cluster.reopen(alloc) {
        Ok(()) => Ok(out.push_str("opened\n")?),
        Err(fault) => Ok(out.push_str(fault_word(fault))?),
    }
}

fn cluster_row(
    alloc: Global,
    out: &mut String,
    cluster: &mut MemCluster,
    folder: &mut MemFolder,
    row: &str,
    lines: &mut Lines<'_>,
) -> Result<(), Stop> {
    match parted(row) {
        ("run", words) => run_row(alloc, out, cluster, folder, words, lines),
        ("show", namespace) => show_row(alloc, out, cluster, namespace),
        ("put", digits) => put_row(alloc, out, cluster, digits),
        ("apply", digits) => apply_row(alloc, out, cluster, digits_of(alloc, digits)?),
        ("apply-blanks", count) => apply_row(alloc, out, cluster, blanks(alloc, count)?),
        ("reopen", _) => reopen_row(alloc, out, cluster),
        (_, _) => Err(Stop::Row),
    }
}

fn cluster_rows(
    alloc: Global,
    out: &mut String,
    cluster: &mut MemCluster,
    folder: &mut MemFolder,
    lines: &mut Lines<'_>,
) -> Result<(), Stop> {
    for _ in 0..u64::MAX {
        let Some(row) = next_row(lines) else {
            break;
        };
        cluster_row(alloc, out, cluster, folder, row, lines)?;
    }
    Ok(())
}

/// `cluster LIMIT -7 +8 !9`: a store with room for so many writes, of which call 7 is lost and put 8 made without an
/// answer, and a folder whose call 9 fails: its files, a point, and the calls up to another.
pub fn cluster_block(
    alloc: Global,
    out: &mut String,
    words: &str,
    lines: &mut Lines<'_>,
) -> Result<(), Stop> {
    let (limit, marks) = parted(words);
    let limit = limit_of(limit)?;
    let misses = misses_of(alloc, marks.split_whitespace())?;
    let mut cluster = MemCluster::new(alloc, limit, misses);
    let fails = marked(alloc, marks, '!')?;
    let mut folder = MemFolder::new(next_files(alloc, lines)?, fails);
    cluster_rows(alloc, out, &mut cluster, &mut folder, lines)
}
