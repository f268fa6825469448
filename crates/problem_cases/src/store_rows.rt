// The store that rows write into, and the views of it.
use crate::answer_rows::{accept_row, decide_row};
use crate::basis_rows::{basis_row, catalogs_row, installed_row};
use crate::problem_rows::{problem_row, upgrades_row};
use crate::rows::{Stop, name_of};
use cluster_objects::Write;
use object_store::{Cluster, PutAnswer, SureCluster, View};
use olm_base::Bytes;
use payloads::read_payload;
use std::alloc::Global;

/// The most writes of a case.
const LIMIT: u64 = 100;

/// A store, and the text that is read next.
#[derive(Drop)]
pub struct Case {
    pub store: SureCluster,
    pub text: Vec<u8>,
}

impl Case {
    pub fn new(alloc: Global) -> Case {
        Case {
            store: SureCluster::new(alloc, LIMIT),
            text: Vec::new(alloc),
        }
    }
}

/// `{ .. `: one more line of the text.
pub fn text_row(text: &mut Vec<u8>, row: &str) -> Result<(), Stop> {
    text.extend_from_slice(row.as_bytes())?;
    Ok(text.push(b'\n')?)
}

fn write_of(alloc: Global, digits: &str) -> Result<Write, Stop> {
    let Ok(payload) = hex::decode(alloc, digits) else {
        return Err(Stop::Row);
    };
    match read_payload(alloc, &payload)? {
        Some(write) => Ok(write),
        None => Err(Stop::Row),
    }
}

// Gives the object a body, if there is a text for it.
fn give_body(write: &mut Write, text: Vec<u8>) {
    if text.is_empty() {
        return;
    }
    if let Some(object) = &mut write.object {
        object.body = Bytes::from_vec(text);
    }
}

fn put(alloc: Global, store: &mut SureCluster, write: Write) -> Result<(), Stop> {
    match store.put(alloc, write) {
        PutAnswer::Done { .. } => Ok(()),
        PutAnswer::Memory => Err(Stop::Memory),
        PutAnswer::Conflict { .. } | PutAnswer::Full | PutAnswer::Failed => Err(Stop::Row),
    }
}

/// `put WORDS = DIGITS`: makes the write of this payload. The text, if there is one, is its object's body, and it is
/// empty then.
pub fn put_row(alloc: Global, case: &mut Case, words: &str) -> Result<(), Stop> {
    let Some((_, digits)) = words.split_once(" = ") else {
        return Err(Stop::Row);
    };
    let mut write = write_of(alloc, digits)?;
    let text = std::mem::replace(&mut case.text, Vec::new(alloc));
    give_body(&mut write, text);
    put(alloc, &mut case.store, write)
}

// What a command says of a view.
fn tell_view(
    alloc: Global,
    out: &mut String,
    view: &View,
    command: &str,
    words: &str,
) -> Result<(), Stop> {
    match command {
        "catalogs" => catalogs_row(alloc, out, view),
        "basis" => basis_row(alloc, out, view),
        "installed" => installed_row(alloc, out, view, words),
        "upgrades" => upgrades_row(alloc, out, view, words),
        "problem" => problem_row(alloc, out, view),
        "decide" => decide_row(alloc, out, view, words),
        "accept" => accept_row(alloc, out, view, words),
        _ => Err(Stop::Row),
    }
}

fn tell_namespace(
    alloc: Global,
    out: &mut String,
    store: &mut SureCluster,
    command: &str,
    namespace: &str,
    words: &str,
) -> Result<(), Stop> {
    let namespace = name_of(alloc, namespace)?;
    match store.snapshot(alloc, &namespace) {
        Ok(view) => tell_view(alloc, out, &view, command, words),
        Err(_) => Err(Stop::Memory),
    }
}

/// `COMMAND NAMESPACE/WORDS`: what a command says of the namespace.
pub fn view_row(
    alloc: Global,
    out: &mut String,
    store: &mut SureCluster,
    command: &str,
    words: &str,
) -> Result<(), Stop> {
    match words.split_once('/') {
        Some((namespace, words)) => tell_namespace(alloc, out, store, command, namespace, words),
        None => tell_namespace(alloc, out, store, command, words, ""),
    }
}
