// The tips of a namespace.
ghost use Rattle.std.specs.Prelude.{◌≡◌, ◌==◌, Bool, false, IfOk, map};
ghost use Rattle.std.specs.List.{after_first};
ghost use Rattle.std.specs.Option.{option_copied, option_map, option_map_or};
ghost use Rattle.semver.specs.Identifiers.{parts_of};
ghost use Rattle.op_properties.specs.Offers as offers;
ghost use Rattle.view_basis.specs.Forward.{is_forward};
ghost use Rattle.view_basis.specs.Tips as spec;

use crate::forward::{is_forward, may_upgrade};
use cluster_objects::{Crd, CsvStatus, Key, Status, Tip, is_csv_key};
use object_store::{Shared, View};
use olm_base::{Gvk, Many, Memory, Name, Text};
use op_properties::Offer;
use semver::{Error, Version};
use std::alloc::{AllocError, Global};
use std::str;

/// The CSV of the slot, if one of this namespace stands there.
pub fn csv_in<'a>(namespace: &Name, entry: &'a (Key, Shared)) -> Option<&'a CsvStatus>
    ensures { option_copied result ≡ spec.csv_in namespace.now entry.now }
{
    if entry.0.namespace.as_slice() != namespace.as_bytes() || !is_csv_key(&entry.0) {
        return None;
    }
    match &entry.1.slot().object {
        None => None,
        Some(object) => match &object.status {
            Status::Csv(csv) => Some(csv),
            _ => None,
        },
    }
}

fn names(name: &Name, csv: &CsvStatus) -> bool
    ensures { result ≡ spec.names name.now csv.now }
{
    match &csv.replaces {
        Some(replaced) => name == replaced,
        None => false,
    }
}

fn names_another(namespace: &Name, name: &Name, entry: &(Key, Shared)) -> bool
    ensures { result ≡ spec.names_another namespace.now name.now entry.now }
{
    if entry.0.name == *name {
        return false;
    }
    match csv_in(namespace, entry) {
        Some(csv) => names(name, csv),
        None => false,
    }
}

/// Whether another CSV of the view's namespace names this one in `replaces`.
pub fn is_replaced(view: &View, name: &Name) -> bool
    ensures { result ≡ spec.is_replaced view.now name.now }
{
    let namespace = view.namespace();
    view.slots()
        .iter()
        .any(|entry| names_another(namespace, name, entry))
}

fn as_text(name: &Name) -> &str
    ensures { result.now ≡ name.now }
{
    match str::from_utf8(name.as_bytes()) {
        Ok(text) => text,
        Err(_) => unreachable!(),
    }
}

// What stands behind the name's first dot.
fn group_of(alloc: Global, name: &Name) -> Result<Text, Memory>
    ensures { IfOk result (λ group. group ≡ after_first (λ byte. byte == 46) name.now) }
{
    match as_text(name).split_once('.') {
        Some((_, group)) => Text::from_str(alloc, group),
        None => Text::from_str(alloc, ""),
    }
}

/// The kind that a custom resource definition is of.
pub fn kind_of(alloc: Global, crd: &Crd) -> Result<Gvk, Memory>
    ensures { IfOk result (λ kind. kind ≡ spec.kind_of crd.now) }
{
    Ok(Gvk {
        group: group_of(alloc, &crd.name)?,
        version: crd.version.clone()?,
        kind: crd.kind.clone()?,
    })
}

fn is_among(kind: &Gvk, kinds: &[Gvk]) -> bool
    ensures { result ≡ offers.is_among kind.now kinds.now }
{
    kinds.iter().any(|other| kind == other)
}

// The kinds of the definitions, each once where it first stands.
fn kinds_of(alloc: Global, owned: &[Crd]) -> Result<Many<Gvk>, Memory>
    ensures { IfOk result (λ kinds. kinds ≡ offers.each_once (map spec.kind_of owned.now)) }
{
    let mut kinds = Many::new(alloc);
    'definitions: for crd in owned {
        let kind = kind_of(alloc, crd)?;
        if !is_among(&kind, kinds.as_slice()) {
            kinds.push(kind)?;
        }
    }
    Ok(kinds)
}

fn tip_of(alloc: Global, forward: bool, name: &Name, csv: &CsvStatus) -> Result<Tip, Memory>
    ensures { IfOk result (λ tip. tip ≡ spec.tip_of forward name.now csv.now) }
{
    Ok(Tip {
        name: name.clone()?,
        package: csv.package.clone()?,
        version: csv.version.clone()?,
        kinds: kinds_of(alloc, csv.owned.as_slice())?,
        succeeded: may_upgrade(forward, csv),
    })
}

// The CSV of the slot, if it is a tip.
fn tip_csv_in<'a>(view: &View, entry: &'a (Key, Shared)) -> Option<&'a CsvStatus>
    ensures { option_map (spec.tip_of (is_forward view.now) entry.now.0.name) (option_copied result) ≡ spec.tip_in view.now entry.now }
{
    match csv_in(view.namespace(), entry) {
        None => None,
        Some(csv) => {
            if is_replaced(view, &entry.0.name) {
                None
            } else {
                Some(csv)
            }
        }
    }
}

// The tip of the slot, if one stands there, in a namespace of which it is known whether it is forward.
fn tip_in(
    alloc: Global,
    view: &View,
    forward: bool,
    entry: &(Key, Shared),
) -> Result<Option<Tip>, Memory>
    requires { forward ≡ is_forward view.now }
    ensures { IfOk result (λ tip. tip ≡ spec.tip_in view.now entry.now) }
{
    match tip_csv_in(view, entry) {
        None => Ok(None),
        Some(csv) => Ok(Some(tip_of(alloc, forward, &entry.0.name, csv)?)),
    }
}

/// The tips of the view's namespace: its CSVs that no other CSV there names in `replaces`, in the order of the slots.
pub fn tips_of(alloc: Global, view: &View) -> Result<Many<Tip>, Memory>
    ensures { IfOk result (λ tips. tips ≡ spec.tips view.now) }
{
    let forward = is_forward(view);
    let mut tips = Many::new(alloc);
    'slots: for entry in view.slots() {
        if let Some(tip) = tip_in(alloc, view, forward, entry)? {
            tips.push(tip)?;
        }
    }
    Ok(tips)
}

fn is_installed_in(view: &View, package: &Name, entry: &(Key, Shared)) -> bool
    ensures { result ≡ option_map_or (spec.is_tip_of «package».now) (spec.tip_in view.now entry.now) false }
{
    match tip_csv_in(view, entry) {
        None => false,
        Some(csv) => match &csv.package {
            Some(other) => package == other,
            None => false,
        },
    }
}

/// The place among the view's slots of the first tip of a package. It takes no memory.
pub fn installed_of(view: &View, package: &Name) -> Option<usize>
    ensures { result ≡ spec.installed_place view.now «package».now }
{
    view.slots()
        .iter()
        .position(|entry| is_installed_in(view, package, entry))
}

/// The version that a tip counts as: that of its text, or 0.0.0 where its text is no version.
#[tactic(auto, unfolding(version_ranges::specs::Words::version_of))]
pub fn tip_version(alloc: Global, tip: &Tip) -> Result<Version, Memory>
    ensures { IfOk result (λ version. parts_of version ≡ spec.tip_version tip.now) }
{
    match Version::parse(alloc, tip.version.as_str()) {
        Ok(version) => Ok(version),
        Err(error) => {
            if error == Error::from(AllocError) {
                Err(Memory)
            } else {
                Ok(Version::new(0, 0, 0))
            }
        }
    }
}

/// What a tip provides: its package, if it is known, the version that it counts as, and its kinds.
pub fn tip_offer(alloc: Global, tip: &Tip) -> Result<Offer, Memory>
    ensures { IfOk result (λ offer. offers.shown offer ≡ spec.tip_offer tip.now) }
{
    Ok(Offer {
        package: tip.package.clone()?,
        version: tip_version(alloc, tip)?,
        kinds: tip.kinds.clone()?,
    })
}
