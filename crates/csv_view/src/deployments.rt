// The deployments of CSVs.
ghost use Rattle.std.specs.Prelude.{◌≡◌, ◌&&◌, false, true, IfOk, not, option_copied};
ghost use Rattle.std.specs.List.{list_all, list_any};
ghost use Rattle.std.specs.Option.{option_map_or};
ghost use Rattle.cluster_objects.specs.Kinds.{deployment_at};
ghost use Rattle.lawful_history.specs.Installing as installing;
ghost use Rattle.csv_phases.specs.Conditions as spec;
ghost use Rattle.csv_phases.specs.Csvs as csvs;

use crate::csvs::Csv;
use cluster_objects::{Key, Object, Readiness, Status, is_deployment_key};
use object_store::{Shared, View};
use olm_base::{Memory, Name};
use std::alloc::Global;
use view_slots::{deployment_key, object_at};

/// The CSV that an object belongs to, if it belongs to one.
pub fn owner_of(object: Option<&Object>) -> Option<&Name>
    ensures { option_copied result ≡ installing.owner_of (option_copied object.entry) }
{
    match object {
        Some(object) => object.owner.as_ref(),
        None => None,
    }
}

// Whether what stands there belongs to the CSV of this name.
fn is_owned_by(name: &Name, there: Option<&Object>) -> bool
    ensures { result ≡ csvs.is_owned_by name.now (option_copied there.entry) }
{
    match owner_of(there) {
        Some(owner) => name == owner,
        None => false,
    }
}

fn deployment_at(key: &Key, there: Option<&Object>) -> Option<Readiness>
    ensures { result ≡ deployment_at key.now (option_copied there.entry) }
{
    if !is_deployment_key(key) {
        return None;
    }
    match there {
        None => None,
        Some(object) => match &object.status {
            Status::Deployment(readiness) => Some(*readiness),
            _ => None,
        },
    }
}

/// How far the Deployment of a slot is, if one of this namespace stands there.
pub fn deployment_in(namespace: &Name, entry: &(Key, Shared)) -> Option<Readiness>
    ensures { result ≡ csvs.deployment_in namespace.now entry.now }
{
    if entry.0.namespace.as_slice() == namespace.as_bytes() {
        deployment_at(&entry.0, entry.1.slot().object.as_ref())
    } else {
        None
    }
}

// How far the Deployment of this name is, if it is there and belongs to the CSV.
fn owned_deployment(
    alloc: Global,
    view: &View,
    csv: &Csv,
    name: &Name,
) -> Result<Option<Readiness>, Memory>
    ensures { IfOk result (λ found. found ≡ csvs.owned_deployment view.now csv.now name.now) }
{
    let key = deployment_key(alloc, view.namespace(), name)?;
    let there = object_at(view, &key);
    if is_owned_by(&csv.key.name, there) {
        Ok(deployment_at(&key, there))
    } else {
        Ok(None)
    }
}

/// Whether no Deployment of this name is there that belongs to the CSV.
pub fn is_missing(alloc: Global, view: &View, csv: &Csv, name: &Name) -> Result<bool, Memory>
    ensures { IfOk result (λ missing. missing ≡ spec.is_missing view.now csv.now name.now) }
{
    let found = owned_deployment(alloc, view, csv, name)?;
    Ok(found.is_none())
}

/// Whether all its deployments are there.
pub fn deployments_are_there(alloc: Global, view: &View, csv: &Csv) -> Result<bool, Memory>
    ensures { IfOk result (λ there. there ≡ spec.deployments_are_there view.now csv.now) }
{
    'names: for name in csv.status.deployments.as_slice() {
        if is_missing(alloc, view, csv, name)? {
            return Ok(false);
        }
    }
    Ok(true)
}

fn is_ready_state(readiness: Readiness) -> bool
    ensures { result ≡ spec.is_ready_state readiness }
{
    match readiness {
        Readiness::Ready => true,
        Readiness::Waiting | Readiness::Failed => false,
    }
}

fn is_failed_state(readiness: Readiness) -> bool
    ensures { result ≡ spec.is_failed_state readiness }
{
    match readiness {
        Readiness::Failed => true,
        Readiness::Waiting | Readiness::Ready => false,
    }
}

// Whether the Deployment of this name is there, belongs to the CSV and is Ready.
fn has_ready(alloc: Global, view: &View, csv: &Csv, name: &Name) -> Result<bool, Memory>
    ensures { IfOk result (λ ready. ready
        ≡ option_map_or spec.is_ready_state (csvs.owned_deployment view.now csv.now name.now) false) }
{
    match owned_deployment(alloc, view, csv, name)? {
        Some(readiness) => Ok(is_ready_state(readiness)),
        None => Ok(false),
    }
}

// Whether the Deployment of this name is missing or Failed.
fn has_lost(alloc: Global, view: &View, csv: &Csv, name: &Name) -> Result<bool, Memory>
    ensures { IfOk result (λ lost. lost
        ≡ option_map_or spec.is_failed_state (csvs.owned_deployment view.now csv.now name.now) true) }
{
    match owned_deployment(alloc, view, csv, name)? {
        Some(readiness) => Ok(is_failed_state(readiness)),
        None => Ok(true),
    }
}

/// Whether all its deployments are there and Ready.
pub fn deployments_are_ready(alloc: Global, view: &View, csv: &Csv) -> Result<bool, Memory>
    ensures { IfOk result (λ ready. ready ≡ spec.deployments_are_ready view.now csv.now) }
{
    'names: for name in csv.status.deployments.as_slice() {
        if !has_ready(alloc, view, csv, name)? {
            return Ok(false);
        }
    }
    Ok(true)
}

/// Whether one of its deployments is missing or Failed.
pub fn deployment_is_lost(alloc: Global, view: &View, csv: &Csv) -> Result<bool, Memory>
    ensures { IfOk result (λ lost. lost ≡ spec.deployment_is_lost view.now csv.now) }
{
    'names: for name in csv.status.deployments.as_slice() {
        if has_lost(alloc, view, csv, name)? {
            return Ok(true);
        }
    }
    Ok(false)
}

// Whether a Deployment of the view's namespace stands in the slot that belongs to the CSV of this name and is Failed.
fn is_failed_of(view: &View, name: &Name, entry: &(Key, Shared)) -> bool
    ensures { result
        ≡ (option_map_or spec.is_failed_state (csvs.deployment_in view.now.namespace entry.now) false
        && csvs.is_owned_by name.now entry.now.1.object) }
{
    match deployment_in(view.namespace(), entry) {
        Some(readiness) => {
            is_failed_state(readiness) && is_owned_by(name, entry.1.slot().object.as_ref())
        }
        None => false,
    }
}

/// Whether a Deployment that belongs to the CSV is Failed, whether the CSV lists it or not.
pub fn owns_failed(view: &View, csv: &Csv) -> bool
    ensures { result ≡ spec.owns_failed view.now csv.now }
{
    let name = &csv.key.name;
    view.slots()
        .iter()
        .any(|entry| is_failed_of(view, name, entry))
}
