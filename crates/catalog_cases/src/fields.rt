// Blobs, fields, ranges and names.

use anyhow::{Result, bail};
use catalog_stream::{Blobs, StreamFault, read_blobs};
use json_fields::{Fault, Names, bytes_at, group_at, list_at, name_at, opt_name_at, text_at};
use name_tables::{NameSet, OwnedNames};
use olm_base::Name;
use percent_encoding::percent_decode;
use semver::Version;
use serde_json::Value;
use std::alloc::{AllocError, Global};
use std::io;
use version_ranges::Range;

/// The bytes of a text in which `%` and two hexadecimal digits write a byte.
pub fn decoded(alloc: Global, text: &str) -> Result<Vec<u8>, AllocError> {
    let mut bytes = Vec::new(alloc);
    percent_decode(text.as_bytes()).append_to(&mut bytes)?;
    Ok(bytes)
}

/// That text, where what is no UTF-8 is replaced.
pub fn decoded_text(alloc: Global, text: &str) -> Result<String, AllocError> {
    let bytes = decoded(alloc, text)?;
    String::from_utf8_lossy(alloc, bytes.as_slice())
}

/// Prints the fault that ends a text's blobs, if it comes twice.
fn put_end(rt: &impl Print, fault: StreamFault, again: Option<StreamFault>) -> Result<()> {
    if again == Some(fault) {
        println!(rt; " {fault}")?;
    } else {
        println!(rt; " {fault}, and then another")?;
    }
    Ok(())
}

/// `blobs TEXT` prints where each blob begins and ends, and the fault behind them.
pub fn put_blobs(rt: &impl Print, alloc: Global, text: &str) -> Result<()> {
    let bytes = decoded(alloc, text)?;
    let mut blobs = Blobs::new(bytes.as_slice());
    print!(rt; " ")?;
    for _ in 0..=bytes.len() {
        match blobs.next(alloc) {
            Ok(Some(blob)) => print!(rt; " {}..{}", blob.start, blob.end)?,
            Ok(None) => {
                println!(rt; " end")?;
                return Ok(());
            }
            Err(fault) => return put_end(rt, fault, blobs.next(alloc).err()),
        }
    }
    bail!("the blobs have no end")
}

/// `values TEXT` prints where each blob begins and ends, and what it has at the key `a`.
pub fn put_values(rt: &impl Print, alloc: Global, text: &str) -> Result<()> {
    let blobs = read_blobs(alloc, text.as_bytes())?;
    for blob in blobs.as_slice() {
        print!(rt; "  {}..{}", blob.start, blob.end)?;
        match blob.value.get("a") {
            Some(value) => println!(rt; " {value}")?,
            None => println!(rt; " nothing")?,
        }
    }
    Ok(())
}

/// Prints the fault of a field, or that it has none.
fn put_kind<T: Drop>(rt: &impl Print, form: &str, found: Result<T, Fault>) -> io::Result<()> {
    match found {
        Ok(_) => print!(rt; "{form} read"),
        Err(fault) => print!(rt; "{form} {}", fault.kind),
    }
}

fn put_forms(rt: &impl Print, alloc: Global, value: &Value, key: &str) -> io::Result<()> {
    put_kind(rt, "  text", text_at(alloc, value, key))?;
    put_kind(rt, ", name", name_at(alloc, value, key))?;
    put_kind(rt, ", optional name", opt_name_at(alloc, value, key))?;
    put_kind(rt, ", group", group_at(alloc, value, key))?;
    put_kind(rt, ", bytes", bytes_at(alloc, value, key))?;
    println!(rt; "")
}

/// `fields KEY JSON` prints what is wrong with the field at the key, as each form of field.
pub fn put_fields(rt: &impl Print, alloc: Global, words: &str) -> Result<()> {
    let Some((key, text)) = words.split_once(' ') else {
        bail!("a key and an object are wanted");
    };
    let value = Value::from_str(alloc, text)?;
    put_forms(rt, alloc, &value, key)?;
    Ok(())
}

fn put_list(rt: &impl Print, alloc: Global, value: &Value, key: &str) -> io::Result<()> {
    match list_at::<Names>(alloc, value, key) {
        Ok(names) => println!(rt; "  {} names", names.as_slice().len()),
        Err(fault) => println!(rt; "  {} {}", fault.path.as_str(), fault.kind),
    }
}

/// `names KEY JSON` prints how many names stand in the list at the key, or what is wrong.
pub fn put_names(rt: &impl Print, alloc: Global, words: &str) -> Result<()> {
    let Some((key, text)) = words.split_once(' ') else {
        bail!("a key and an object are wanted");
    };
    let value = Value::from_str(alloc, text)?;
    put_list(rt, alloc, &value, key)?;
    Ok(())
}

/// `range TEXT` prints whether the text is a range, or what is wrong.
pub fn put_range(rt: &impl Print, alloc: Global, text: &str) -> Result<()> {
    let text = decoded_text(alloc, text)?;
    let _range = Range::parse(alloc, &text)?;
    println!(rt; "  a range")?;
    Ok(())
}

/// The copy of a range, which must hold for the same versions.
fn copied_range(alloc: Global, text: &str) -> Result<Range> {
    let text = decoded_text(alloc, text)?;
    let range = Range::parse(alloc, &text)?;
    Ok(range.clone()?)
}

fn holds(alloc: Global, version: &str, range: &str) -> Result<bool> {
    let version = Version::parse(alloc, version)?;
    let range = copied_range(alloc, range)?;
    Ok(range.holds(&version))
}

/// `holds VERSION RANGE` prints whether the range holds for the version.
pub fn put_holds(rt: &impl Print, alloc: Global, words: &str) -> Result<()> {
    let Some((version, range)) = words.split_once(' ') else {
        bail!("a version and a range are wanted");
    };
    if holds(alloc, version, range)? {
        println!(rt; "  yes")?;
    } else {
        println!(rt; "  no")?;
    }
    Ok(())
}

/// What a set answers for a name, and for its addition.
fn answer(had: bool, is_new: bool) -> &'static str {
    match (had, is_new) {
        (true, false) => "known",
        (false, true) => "new",
        _ => "both answers",
    }
}

fn names_of(alloc: Global, words: &str) -> Result<Vec<Name>> {
    let mut names = Vec::new(alloc);
    for word in words.split_whitespace() {
        names.push(Name::new(alloc, word.as_bytes())?)?;
    }
    Ok(names)
}

/// `set NAMES` adds the names to a set, and prints which of them it didn't have before.
pub fn put_set(rt: &impl Print, alloc: Global, words: &str) -> Result<()> {
    let names = names_of(alloc, words)?;
    let mut set = NameSet::new(alloc);
    print!(rt; " ")?;
    for name in names.iter() {
        let had = set.has(name);
        let is_new = set.add(name)?;
        print!(rt; " {}", answer(had, is_new))?;
    }
    println!(rt; "")?;
    Ok(())
}

/// A name, and that of its owner.
#[derive(Drop)]
struct Pair {
    owner: Name,
    name: Name,
}

fn pair_of(alloc: Global, word: &str) -> Result<Pair> {
    let Some((owner, name)) = word.split_once('/') else {
        bail!("an owner and a name are wanted");
    };
    Ok(Pair {
        owner: Name::new(alloc, owner.as_bytes())?,
        name: Name::new(alloc, name.as_bytes())?,
    })
}

fn pairs_of(alloc: Global, words: &str) -> Result<Vec<Pair>> {
    let mut pairs = Vec::new(alloc);
    for word in words.split_whitespace() {
        pairs.push(pair_of(alloc, word)?)?;
    }
    Ok(pairs)
}

/// `owned OWNER/NAME ..` does so with names that belong to an owner.
pub fn put_owned(rt: &impl Print, alloc: Global, words: &str) -> Result<()> {
    let pairs = pairs_of(alloc, words)?;
    let mut set = OwnedNames::new(alloc);
    print!(rt; " ")?;
    for pair in pairs.iter() {
        let had = set.has(&pair.owner, &pair.name);
        let is_new = set.add(&pair.owner, &pair.name)?;
        print!(rt; " {}", answer(had, is_new))?;
    }
    println!(rt; "")?;
    Ok(())
}
