// The claims of CSVs in Pending.
ghost use Rattle.std.specs.Prelude.{◌≡◌, ◌&&◌, IfOk, option_copied, slice_get};
ghost use Rattle.std.specs.List.{filter_map};
ghost use Rattle.cluster_objects.specs.declared.statuses.CsvPhase.TheVariants as phase;
ghost use Rattle.csv_phases.specs.Conditions as conditions;
ghost use Rattle.csv_phases.specs.Csvs.{is_in};
ghost use Rattle.csv_phases.specs.Phases as spec;
ghost use Rattle.phases_role.specs.Each as each;

use cluster_objects::{ClaimsStatus, CsvPhase, Object, Status, Write, Writer};
use csv_view::{Csv, csvs_of, first_unheld, group_fits};
use object_store::View;
use olm_base::{Bytes, Memory, Name};
use operator_groups::Claimed;
use std::alloc::Global;
use view_slots::{claims_key, object_at, version_at};

// Whether it is a CSV in Pending whose group fits.
fn may_claim(alloc: Global, view: &View, csv: &Csv) -> Result<bool, Memory>
    ensures { IfOk result (λ may. may
        ≡ (is_in phase.Pending csv.now.status.phase && conditions.group_fits view.now csv.now)) }
{
    match csv.status.phase {
        CsvPhase::Pending => group_fits(alloc, view, csv),
        CsvPhase::Nothing
        | CsvPhase::InstallReady
        | CsvPhase::Installing
        | CsvPhase::Succeeded
        | CsvPhase::Failed
        | CsvPhase::Replacing
        | CsvPhase::Deleting => Ok(false),
    }
}

// The claims with the CSV's next one, if no other namespace has taken it.
fn next_claims(alloc: Global, view: &View, csv: &Csv) -> Result<Option<ClaimsStatus>, Memory>
    ensures { IfOk result (λ next. next ≡ spec.next_claims view.now csv.now) }
{
    match first_unheld(alloc, view, csv)? {
        None => Ok(None),
        Some(claimed) => Ok(claims_after(claimed)),
    }
}

fn claims_after(claimed: Claimed) -> Option<ClaimsStatus>
    ensures { result ≡ each.claims_after claimed }
{
    match claimed {
        Claimed::Held => None,
        Claimed::Taken { by: _ } => None,
        Claimed::Next(next) => Some(next),
    }
}

// The owner that the claims keep, where claims stand there.
fn claims_owner(there: Option<&Object>) -> Result<Option<Name>, Memory>
    ensures { IfOk result (λ owner. owner ≡ spec.claims_owner (option_copied there.entry)) }
{
    match there {
        Some(object) => match &object.status {
            Status::Claims(_) => Ok(object.owner.clone()?),
            _ => Ok(None),
        },
        None => Ok(None),
    }
}

// The object of these claims, over what stands there.
fn claims_object(
    alloc: Global,
    view: &View,
    there: Option<&Object>,
    next: ClaimsStatus,
) -> Result<Object, Memory>
    ensures { IfOk result (λ object. object
        ≡ each.claims_object view.now (option_copied there.entry) next) }
{
    Ok(Object {
        body: Bytes::from_vec(Vec::new(alloc)),
        status: Status::Claims(next),
        owner: claims_owner(there)?,
        stamp: None,
        seen: view.length(),
    })
}

fn claims_write(alloc: Global, view: &View, next: ClaimsStatus) -> Result<Write, Memory>
    ensures { IfOk result (λ write. write ≡ spec.claims_write view.now next) }
{
    let key = claims_key(alloc)?;
    let object = claims_object(alloc, view, object_at(view, &key), next)?;
    Ok(Write {
        by: Writer::Phases,
        expect: version_at(view, &key),
        key,
        object: Some(object),
    })
}

// The write of a CSV's next claim, if it has one.
fn claim_of(alloc: Global, view: &View, csv: &Csv) -> Result<Option<Write>, Memory>
    ensures { IfOk result (λ write. write ≡ each.claim_of view.now csv.now) }
{
    if !may_claim(alloc, view, csv)? {
        return Ok(None);
    }
    match next_claims(alloc, view, csv)? {
        Some(next) => Ok(Some(claims_write(alloc, view, next)?)),
        None => Ok(None),
    }
}

// The first write of these CSVs' claims.
#[tactic(auto, using(subscription_states::proofs::Firsts::passed, subscription_states::proofs::Firsts::found))]
fn first_among(alloc: Global, view: &View, csvs: &[Csv]) -> Result<Option<Write>, Memory>
    ensures { IfOk result (λ write. write
        ≡ slice_get (filter_map (each.claim_of view.now) csvs.now) 0) }
{
    'csvs: for csv in csvs {
        if let Some(write) = claim_of(alloc, view, csv)? {
            return Ok(Some(write));
        }
    }
    Ok(None)
}

/// The first write of claims, and None exactly where there is none.
#[tactic(auto, using(crate::proofs::Parts::claims_first))]
pub(crate) fn first_claims(alloc: Global, view: &View) -> Result<Option<Write>, Memory>
    ensures { IfOk result (λ write. write ≡ slice_get (spec.claims_writes view.now) 0) }
{
    let csvs = csvs_of(alloc, view)?;
    first_among(alloc, view, csvs.as_slice())
}
