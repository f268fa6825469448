// The Deployments whose CSV is absent.
ghost use Rattle.std.specs.Prelude.{◌≡◌, IfOk, is_none, is_some, option_copied, slice_get};
ghost use Rattle.std.specs.List.{filter_map, list_any};
ghost use Rattle.cluster_objects.specs.Keys.{same_text};
ghost use Rattle.cluster_objects.specs.Kinds.{as_deployment};
ghost use Rattle.csv_phases.specs.Csvs as places;
ghost use Rattle.csv_phases.specs.Phases as spec;
ghost use Rattle.phases_role.specs.Each as each;

use cluster_objects::{CsvPhase, Key, Object, Status, Write, Writer, is_deployment_key};
use csv_view::{Csv, csv_named, csvs_of, owner_of};
use object_store::{Shared, View};
use olm_base::{Memory, Name};
use std::alloc::Global;

fn is_among(name: &Name, names: &[Name]) -> bool
    ensures { result ≡ list_any (same_text name.now) names.now }
{
    names.iter().any(|other| name == other)
}

// Whether it is a CSV in InstallReady that lists a deployment of this name.
fn lists(csv: &Csv, name: &Name) -> bool
    ensures { result ≡ each.lists name.now csv.now }
{
    match csv.status.phase {
        CsvPhase::InstallReady => is_among(name, csv.status.deployments.as_slice()),
        CsvPhase::Nothing
        | CsvPhase::Pending
        | CsvPhase::Installing
        | CsvPhase::Succeeded
        | CsvPhase::Failed
        | CsvPhase::Replacing
        | CsvPhase::Deleting => false,
    }
}

fn is_listed(csvs: &[Csv], name: &Name) -> bool
    ensures { result ≡ list_any (each.lists name.now) csvs.now }
{
    csvs.iter().any(|csv| lists(csv, name))
}

fn is_deployment(object: Option<&Object>) -> bool
    ensures { result ≡ is_some (as_deployment (option_copied object.entry)) }
{
    match object {
        Some(object) => matches!(&object.status, Status::Deployment(_)),
        None => false,
    }
}

// Whether a Deployment of this namespace stands in the slot.
fn has_deployment(namespace: &Name, entry: &(Key, Shared)) -> bool
    ensures { result ≡ is_some (places.deployment_in namespace.now entry.now) }
{
    entry.0.namespace.as_slice() == namespace.as_bytes()
        && is_deployment_key(&entry.0)
        && is_deployment(entry.1.slot().object.as_ref())
}

fn is_absent(alloc: Global, view: &View, name: &Name) -> Result<bool, Memory>
    ensures { IfOk result (λ absent. absent ≡ is_none (places.csv_named view.now name.now)) }
{
    match csv_named(alloc, view, name)? {
        Some(_) => Ok(false),
        None => Ok(true),
    }
}

// Whether it belongs to a CSV that isn't there.
fn is_orphan(alloc: Global, view: &View, there: Option<&Object>) -> Result<bool, Memory>
    ensures { IfOk result (λ orphan. orphan ≡ spec.is_orphan view.now (option_copied there.entry)) }
{
    match owner_of(there) {
        Some(owner) => is_absent(alloc, view, owner),
        None => Ok(false),
    }
}

// Whether the slot's Deployment is collected, by the view's CSVs.
fn is_collected(
    alloc: Global,
    view: &View,
    csvs: &[Csv],
    entry: &(Key, Shared),
) -> Result<bool, Memory>
    requires { csvs.now ≡ places.csvs view.now }
    ensures { IfOk result (λ collected. collected ≡ spec.is_collected view.now entry.now) }
{
    if !has_deployment(view.namespace(), entry) {
        return Ok(false);
    }
    if !is_orphan(alloc, view, entry.1.slot().object.as_ref())? {
        return Ok(false);
    }
    Ok(!is_listed(csvs, &entry.0.name))
}

fn removal(entry: &(Key, Shared)) -> Result<Write, Memory>
    ensures { IfOk result (λ write. write ≡ spec.removes entry.now.0 entry.now.1.version) }
{
    Ok(Write {
        by: Writer::Phases,
        expect: entry.1.slot().version,
        key: entry.0.clone()?,
        object: None,
    })
}

// The removal of the slot's Deployment, if it is collected.
fn collection_of(
    alloc: Global,
    view: &View,
    csvs: &[Csv],
    entry: &(Key, Shared),
) -> Result<Option<Write>, Memory>
    requires { csvs.now ≡ places.csvs view.now }
    ensures { IfOk result (λ write. write ≡ each.collection_of view.now entry.now) }
{
    if is_collected(alloc, view, csvs, entry)? {
        Ok(Some(removal(entry)?))
    } else {
        Ok(None)
    }
}

// The first removal among these slots.
#[tactic(auto, using(subscription_states::proofs::Firsts::passed, subscription_states::proofs::Firsts::found))]
fn first_in(
    alloc: Global,
    view: &View,
    csvs: &[Csv],
    slots: &[(Key, Shared)],
) -> Result<Option<Write>, Memory>
    requires { csvs.now ≡ places.csvs view.now }
    ensures { IfOk result (λ write. write
        ≡ slice_get (filter_map (each.collection_of view.now) slots.now) 0) }
{
    'slots: for entry in slots {
        if let Some(write) = collection_of(alloc, view, csvs, entry)? {
            return Ok(Some(write));
        }
    }
    Ok(None)
}

/// The removal of the first Deployment that is collected, and None exactly where there is none.
#[tactic(auto, using(crate::proofs::Parts::collection_first))]
pub(crate) fn first_collection(alloc: Global, view: &View) -> Result<Option<Write>, Memory>
    ensures { IfOk result (λ write. write ≡ slice_get (spec.collection_writes view.now) 0) }
{
    let csvs = csvs_of(alloc, view)?;
    first_in(alloc, view, csvs.as_slice(), view.slots())
}
