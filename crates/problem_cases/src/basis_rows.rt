// What a namespace rests on.
use crate::rows::{Stop, name_of, number_of, opt_shown, put_kind, shown};
use cluster_objects::{Basis, Seen, SubSpec, Tip};
use object_store::View;
use olm_base::{Gvk, Name};
use std::alloc::Global;
use view_basis::{basis_of, catalog_of_body, catalogs_of, installed_of, tip_offer};

/// `catalogs NAMESPACE`: the catalogs that it sees, each with `+` where its body is a valid one.
pub fn catalogs_row(alloc: Global, out: &mut String, view: &View) -> Result<(), Stop> {
    for visible in catalogs_of(alloc, view)?.as_slice() {
        let namespace = shown(visible.seen.namespace.as_bytes());
        let name = shown(visible.seen.name.as_bytes());
        let valid = if visible.catalog.is_some() { "+" } else { "" };
        writeln!(out, "  {namespace}/{name}{valid}")?;
    }
    Ok(())
}

fn put_subscription(out: &mut String, name: &Name, spec: &SubSpec) -> Result<(), Stop> {
    write!(
        out,
        "  subscription {} to {} {}",
        shown(name.as_bytes()),
        shown(spec.package.as_bytes()),
        opt_shown(&spec.channel)
    )?;
    let approval = if spec.manual { "manual" } else { "automatic" };
    Ok(writeln!(
        out,
        " from {}/{}, starting at {}, {approval}",
        shown(spec.source_namespace.as_bytes()),
        shown(spec.source.as_bytes()),
        opt_shown(&spec.starting)
    )?)
}

fn put_kinds(out: &mut String, kinds: &[Gvk]) -> Result<(), Stop> {
    for kind in kinds {
        put_kind(out, kind)?;
    }
    Ok(())
}

// The version that a tip counts as, and what it offers.
fn put_offer(alloc: Global, out: &mut String, tip: &Tip) -> Result<(), Stop> {
    let offer = tip_offer(alloc, tip)?;
    let (major, minor, patch) = (
        offer.version.major,
        offer.version.minor,
        offer.version.patch,
    );
    write!(out, " as {major}.{minor}.{patch}, gives")?;
    put_kinds(out, offer.kinds.as_slice())
}

fn put_tip(alloc: Global, out: &mut String, tip: &Tip) -> Result<(), Stop> {
    let name = shown(tip.name.as_bytes());
    let package_name = opt_shown(&tip.package);
    let version = tip.version.as_str();
    write!(out, "  tip {name} of {package_name}, version '{version}'")?;
    put_offer(alloc, out, tip)?;
    let succeeded = if tip.succeeded { "yes" } else { "no" };
    Ok(writeln!(out, ": {succeeded}")?)
}

fn put_seen(out: &mut String, seen: &Seen) -> Result<(), Stop> {
    Ok(writeln!(
        out,
        "  catalog {}/{}, priority {}, version {}",
        shown(seen.namespace.as_bytes()),
        shown(seen.name.as_bytes()),
        seen.priority,
        seen.version
    )?)
}

fn put_basis(alloc: Global, out: &mut String, basis: &Basis) -> Result<(), Stop> {
    for subscription in basis.subscriptions.as_slice() {
        put_subscription(out, &subscription.0, &subscription.1)?;
    }
    for tip in basis.tips.as_slice() {
        put_tip(alloc, out, tip)?;
    }
    for seen in basis.catalogs.as_slice() {
        put_seen(out, seen)?;
    }
    Ok(())
}

/// `basis NAMESPACE`: its subscriptions, its tips and its catalogs.
pub fn basis_row(alloc: Global, out: &mut String, view: &View) -> Result<(), Stop> {
    let basis = basis_of(alloc, view)?;
    put_basis(alloc, out, &basis)
}

/// `installed NAMESPACE/PACKAGE`: the place of the package's installed one among the slots, and its name.
pub fn installed_row(alloc: Global, out: &mut String, view: &View, word: &str) -> Result<(), Stop> {
    let package_name = name_of(alloc, word)?;
    let Some(place) = installed_of(view, &package_name) else {
        return Ok(out.push_str("  none\n")?);
    };
    match view.slots().get(place) {
        Some((key, _)) => Ok(writeln!(out, "  {place} {}", shown(key.name.as_bytes()))?),
        None => Ok(out.push_str("  no slot\n")?),
    }
}

fn put_valid(alloc: Global, out: &mut String, body: &[u8]) -> Result<(), Stop> {
    match catalog_of_body(alloc, body)? {
        Some(_) => Ok(out.push_str("  a catalog\n")?),
        None => Ok(out.push_str("  no catalog\n")?),
    }
}

/// `body`: whether the text is a valid catalog.
pub fn body_row(alloc: Global, out: &mut String, text: &[u8]) -> Result<(), Stop> {
    put_valid(alloc, out, text)
}

/// `spaces COUNT`: whether so many spaces are a valid catalog.
pub fn spaces_row(alloc: Global, out: &mut String, word: &str) -> Result<(), Stop> {
    let count = number_of(word)?;
    let body = vec![in alloc; b' '; count as usize]?;
    put_valid(alloc, out, &body)
}
