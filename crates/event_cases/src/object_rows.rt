// Bodies of objects, as a user gives them and as a plan carries them.
use crate::rows::{Stop, name_of, parted, put_text};
use cluster_objects::{
    Crd, CsvStatus, GroupStatus, Key, Made, Status, SubSpec, SubscriptionStatus, print_key,
    status_of,
};
use object_bodies::{ObjectFault, read_manifest, read_object};
use olm_base::Name;
use std::alloc::Global;

/// Appends the printed form of a key.
pub fn put_key(alloc: Global, out: &mut String, key: &Key) -> Result<(), Stop> {
    let mut printed = Vec::new(alloc);
    print_key(key, &mut printed)?;
    put_text(out, &printed)
}

// A name behind a blank, or a hyphen.
fn put_opt(out: &mut String, name: &Option<Name>) -> Result<(), Stop> {
    out.push(' ')?;
    match name {
        Some(name) => put_text(out, name.as_bytes()),
        None => Ok(out.push('-')?),
    }
}

fn put_crds(out: &mut String, crds: &[Crd]) -> Result<(), Stop> {
    for crd in crds {
        put_text(out, crd.name.as_bytes())?;
        out.push(':')?;
        put_text(out, crd.version.as_bytes())?;
        out.push(':')?;
        put_text(out, crd.kind.as_bytes())?;
        out.push(',')?;
    }
    Ok(())
}

fn put_names(out: &mut String, names: &[Name]) -> Result<(), Stop> {
    for name in names {
        put_text(out, name.as_bytes())?;
        out.push(',')?;
    }
    Ok(())
}

fn put_csv(out: &mut String, csv: &CsvStatus) -> Result<(), Stop> {
    out.push_str("csv")?;
    put_opt(out, &csv.package)?;
    write!(out, " {} owned ", csv.version.as_str())?;
    put_crds(out, csv.owned.as_slice())?;
    out.push_str(" needed ")?;
    put_crds(out, csv.needed.as_slice())?;
    out.push_str(" deployments ")?;
    put_names(out, csv.deployments.as_slice())?;
    out.push_str(" replaces")?;
    put_opt(out, &csv.replaces)?;
    Ok(write!(out, " {:?}", csv.phase)?)
}

fn put_spec(out: &mut String, spec: &SubSpec) -> Result<(), Stop> {
    put_text(out, spec.package.as_bytes())?;
    put_opt(out, &spec.channel)?;
    out.push(' ')?;
    put_text(out, spec.source.as_bytes())?;
    out.push(' ')?;
    put_text(out, spec.source_namespace.as_bytes())?;
    put_opt(out, &spec.starting)?;
    Ok(write!(out, " {}", spec.manual)?)
}

fn put_subscription(out: &mut String, status: &SubscriptionStatus) -> Result<(), Stop> {
    out.push_str("subscription ")?;
    put_spec(out, &status.spec)?;
    Ok(write!(out, " {:?}", status.state)?)
}

fn put_group(out: &mut String, status: &GroupStatus) -> Result<(), Stop> {
    out.push_str("group ")?;
    match &status.targets {
        Some(names) => put_names(out, names.as_slice()),
        None => Ok(out.push_str("all")?),
    }
}

fn put_status(out: &mut String, status: &Status) -> Result<(), Stop> {
    match status {
        Status::Subscription(status) => put_subscription(out, status),
        Status::Csv(status) => put_csv(out, status),
        Status::Strategy(status) => Ok(write!(out, "strategy {}", status.forward)?),
        Status::Group(status) => put_group(out, status),
        other => Ok(write!(out, "{other:?}")?),
    }
}

fn put_read(
    alloc: Global,
    out: &mut String,
    read: &Result<(Key, Status), ObjectFault>,
) -> Result<(), Stop> {
    match read {
        Ok((key, status)) => {
            put_key(alloc, out, key)?;
            out.push(' ')?;
            put_status(out, status)?;
        }
        Err(fault) => write!(out, "{fault}")?,
    }
    Ok(out.push('\n')?)
}

/// `object BODY`: the object that a user's body gives.
pub fn object_row(alloc: Global, out: &mut String, body: &[u8]) -> Result<(), Stop> {
    put_read(alloc, out, &read_object(alloc, body))
}

fn made_status(
    read: Result<(Key, Made), ObjectFault>,
) -> Result<Result<(Key, Status), ObjectFault>, Stop> {
    match read {
        Ok((key, made)) => {
            let status = status_of(&made)?;
            Ok(Ok((key, status)))
        }
        Err(fault) => Ok(Err(fault)),
    }
}

/// `manifest NAMESPACE BODY`: the object that a plan makes of a body.
pub fn manifest_row(alloc: Global, out: &mut String, words: &str) -> Result<(), Stop> {
    let (namespace, body) = parted(words);
    let namespace = name_of(alloc, namespace)?;
    let read = made_status(read_manifest(alloc, body.as_bytes(), &namespace))?;
    put_read(alloc, out, &read)
}
