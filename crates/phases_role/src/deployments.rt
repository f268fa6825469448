// The deployments that CSVs in InstallReady lack.
ghost use Rattle.std.specs.Prelude.{◌≡◌, IfOk, option_copied, slice_get};
ghost use Rattle.std.specs.List.{filter_map};
ghost use Rattle.csv_phases.specs.Phases as spec;
ghost use Rattle.phases_role.specs.Each as each;

use cluster_objects::{CsvPhase, Object, Readiness, Status, Write, Writer};
use csv_view::{Csv, csvs_of, is_gone, is_missing, owner_of};
use object_store::View;
use olm_base::{Bytes, Memory, Name};
use std::alloc::Global;
use view_slots::{deployment_key, object_at, version_at};

// Whether the key may be taken where this stands.
fn is_free(alloc: Global, view: &View, there: Option<&Object>) -> Result<bool, Memory>
    ensures { IfOk result (λ free. free ≡ spec.is_free view.now (option_copied there.entry)) }
{
    match owner_of(there) {
        Some(owner) => is_gone(alloc, view, owner),
        None => Ok(true),
    }
}

// A Deployment that waits, and belongs to the CSV.
fn new_deployment(alloc: Global, view: &View, csv: &Csv) -> Result<Object, Memory>
    ensures { IfOk result (λ object. object ≡ spec.new_deployment view.now csv.now) }
{
    Ok(Object {
        body: Bytes::from_vec(Vec::new(alloc)),
        status: Status::Deployment(Readiness::Waiting),
        owner: Some(csv.key.name.clone()?),
        stamp: None,
        seen: view.length(),
    })
}

// The write of a CSV's deployment, if it is missing and its key may be taken.
fn deployment_write(
    alloc: Global,
    view: &View,
    csv: &Csv,
    name: &Name,
) -> Result<Option<Write>, Memory>
    ensures { IfOk result (λ write. write ≡ spec.deployment_write view.now csv.now name.now) }
{
    let key = deployment_key(alloc, view.namespace(), name)?;
    if !is_missing(alloc, view, csv, name)? {
        return Ok(None);
    }
    if !is_free(alloc, view, object_at(view, &key))? {
        return Ok(None);
    }
    Ok(Some(Write {
        by: Writer::Phases,
        expect: version_at(view, &key),
        object: Some(new_deployment(alloc, view, csv)?),
        key,
    }))
}

// The first write of these deployments of a CSV.
#[tactic(auto, using(subscription_states::proofs::Firsts::passed, subscription_states::proofs::Firsts::found))]
fn first_listed(
    alloc: Global,
    view: &View,
    csv: &Csv,
    names: &[Name],
) -> Result<Option<Write>, Memory>
    ensures { IfOk result (λ write. write
        ≡ slice_get (filter_map (spec.deployment_write view.now csv.now) names.now) 0) }
{
    'names: for name in names {
        if let Some(write) = deployment_write(alloc, view, csv, name)? {
            return Ok(Some(write));
        }
    }
    Ok(None)
}

// The first write of a CSV's deployments.
fn deployment_of(alloc: Global, view: &View, csv: &Csv) -> Result<Option<Write>, Memory>
    ensures { IfOk result (λ write. write ≡ each.deployment_of view.now csv.now) }
{
    match csv.status.phase {
        CsvPhase::InstallReady => {
            first_listed(alloc, view, csv, csv.status.deployments.as_slice())
        }
        CsvPhase::Nothing
        | CsvPhase::Pending
        | CsvPhase::Installing
        | CsvPhase::Succeeded
        | CsvPhase::Failed
        | CsvPhase::Replacing
        | CsvPhase::Deleting => Ok(None),
    }
}

// The first write of these CSVs' deployments.
#[tactic(auto, using(subscription_states::proofs::Firsts::passed, subscription_states::proofs::Firsts::found))]
fn first_among(alloc: Global, view: &View, csvs: &[Csv]) -> Result<Option<Write>, Memory>
    ensures { IfOk result (λ write. write
        ≡ slice_get (filter_map (each.deployment_of view.now) csvs.now) 0) }
{
    'csvs: for csv in csvs {
        if let Some(write) = deployment_of(alloc, view, csv)? {
            return Ok(Some(write));
        }
    }
    Ok(None)
}

/// The first write of deployments, and None exactly where there is none.
#[tactic(auto, using(crate::proofs::Parts::deployments_first))]
pub(crate) fn first_deployment(alloc: Global, view: &View) -> Result<Option<Write>, Memory>
    ensures { IfOk result (λ write. write ≡ slice_get (spec.deployment_writes view.now) 0) }
{
    let csvs = csvs_of(alloc, view)?;
    first_among(alloc, view, csvs.as_slice())
}
