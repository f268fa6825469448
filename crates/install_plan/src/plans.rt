// The plan of a resolution.
ghost use Rattle.std.specs.Prelude.{◌≡◌, IfOk, map, Some, None, if◌then◌else◌, option_copied};
ghost use Rattle.std.specs.List.{list_any};
ghost use Rattle.std.specs.Option.{option_or};
ghost use Rattle.install_plan.specs.Answers.{Answers};
ghost use Rattle.install_plan.specs.Plans as spec;
ghost use Rattle.install_plan.specs.Steps as steps;

use crate::keeping::{first_ones, same_key_fault};
use crate::manifests::manifests;
use crate::refusal::PlanRefusal;
use crate::steps::{bad_place, has_csv, read_steps};
use crate::subscribing::{add_subscriptions, is_manual};
use crate::turns::{Turned, add_steps, in_order};
use cluster_objects::{
    Outcome, PlanFault, PlanPhase, PlanStatus, ResolutionStatus, Step, SubSpec, Taken,
};
use object_store::View;
use olm_base::{Many, Memory, Name};
use std::alloc::Global;
use view_basis::{Visible, catalogs_of, subscriptions_of};

fn copy_name(name: &Name) -> Result<Name, Memory>
    ensures { IfOk result (λ copy. copy ≡ name.now) }
{
    Ok(name.clone()?)
}

fn all_read(
    alloc: Global,
    namespace: &Name,
    catalogs: &[Visible],
    one: &Taken,
) -> Result<Vec<Option<Step>>, Memory>
    ensures { IfOk result (λ found. found.items ≡ steps.read namespace.now (spec.bundled catalogs.now one.now)) }
{
    let bodies = manifests(alloc, catalogs, one)?;
    read_steps(alloc, namespace, one, bodies.as_slice())
}

// What the manifests of one give, where each gives a step.
fn good_steps(
    alloc: Global,
    namespace: &Name,
    catalogs: &[Visible],
    one: &Taken,
) -> Result<Many<Option<Step>>, PlanRefusal>
    ensures { Answers (steps.good_steps namespace.now (spec.bundled catalogs.now one.now)) result }
{
    let read = all_read(alloc, namespace, catalogs, one)?;
    match bad_place(read.as_slice()) {
        Some(place) => Err(PlanRefusal::Cause(PlanFault::BadManifest {
            bundle: copy_name(&one.name)?,
            index: place as u64,
        })),
        None => Ok(Many::from_vec(read)),
    }
}

// The first that has no CSV, so far.
fn lacking_then<'a>(
    lacking: Option<&'a Taken>,
    one: &'a Taken,
    read: &[Option<Step>],
) -> Option<&'a Taken>
    ensures { option_copied result ≡ option_or (option_copied lacking.entry) (if list_any steps.is_csv_step read.now then None else Some one.now) }
{
    match lacking {
        Some(first) => Some(first),
        None => { if has_csv(read) { None } else { Some(one) } }
    }
}

fn lacking_fault(lacking: Option<&Taken>) -> Result<Option<PlanFault>, Memory>
    ensures { IfOk result (λ fault. fault ≡ steps.lacking_fault (option_copied lacking.entry)) }
{
    match lacking {
        Some(first) => Ok(Some(PlanFault::NoManifest {
            bundle: copy_name(&first.name)?,
        })),
        None => Ok(None),
    }
}

fn unless(fault: Option<PlanFault>, turned: Vec<Turned>) -> Result<Many<Turned>, PlanRefusal>
    ensures { Answers (steps.unless fault turned.items) result }
{
    match fault {
        Some(fault) => Err(PlanRefusal::Cause(fault)),
        None => Ok(Many::from_vec(turned)),
    }
}

// The steps of all manifests, where each gives a step and each that is taken has a CSV.
fn manifest_steps(
    alloc: Global,
    namespace: &Name,
    catalogs: &[Visible],
    taken: &[Taken],
) -> Result<Many<Turned>, PlanRefusal>
    ensures { Answers (spec.good_manifests namespace.now (map (spec.bundled catalogs.now) taken.now)) result }
{
    let mut turned = Vec::new(alloc);
    let mut lacking = None;
    for one in taken {
        let read = good_steps(alloc, namespace, catalogs, one)?;
        lacking = lacking_then(lacking, one, read.as_slice());
        add_steps(&mut turned, read.into_vec())?;
    }
    let fault = lacking_fault(lacking)?;
    unless(fault, turned)
}

// The steps that are left of those in order.
fn kept_steps(alloc: Global, turned: Vec<Turned>) -> Result<Many<Step>, PlanRefusal>
    ensures { Answers (spec.kept_steps turned.items) result }
{
    let steps = first_ones(alloc, in_order(turned)?)?;
    match same_key_fault(steps.as_slice()) {
        Some(fault) => Err(PlanRefusal::Cause(fault)),
        None => Ok(steps),
    }
}

fn steps_for(
    alloc: Global,
    namespace: &Name,
    catalogs: &[Visible],
    subscriptions: &[(Name, SubSpec)],
    taken: &[Taken],
) -> Result<Many<Step>, PlanRefusal>
    ensures { Answers (spec.steps_from namespace.now catalogs.now subscriptions.now taken.now) result }
{
    let found = manifest_steps(alloc, namespace, catalogs, taken)?;
    let mut turned = found.into_vec();
    add_subscriptions(alloc, &mut turned, namespace, subscriptions, taken)?;
    kept_steps(alloc, turned)
}

fn new_plan(number: u64, manual: bool, steps: Many<Step>) -> PlanStatus
    ensures { result ≡ spec.new_plan number manual steps }
{
    PlanStatus {
        number,
        manual,
        approved: false,
        phase: if manual {
            PlanPhase::RequiresApproval
        } else {
            PlanPhase::Planning
        },
        cause: None,
        steps,
    }
}

/// What a resolution takes.
pub fn taken_by(outcome: &Outcome) -> &[Taken]
    ensures { result.now ≡ spec.taken_by outcome.now }
{
    match outcome {
        Outcome::Chosen { taken, .. } => taken.as_slice(),
        Outcome::Nothing
        | Outcome::Refused
        | Outcome::Undecided { .. }
        | Outcome::TooLarge { .. } => &[],
    }
}

/// The plan of a resolution in a view, or the first cause why there is none: a manifest that can't be taken,
/// something taken without a CSV, or two steps with one key.
pub fn plan_of(
    alloc: Global,
    resolution: &ResolutionStatus,
    view: &View,
) -> Result<PlanStatus, PlanRefusal>
    ensures { Answers (spec.plan_of resolution.now view.now) result }
{
    let taken = taken_by(&resolution.outcome);
    let catalogs = catalogs_of(alloc, view)?;
    let asked = subscriptions_of(alloc, view)?;
    let manual = is_manual(asked.as_slice(), taken);
    let steps = steps_for(
        alloc,
        view.namespace(),
        catalogs.as_slice(),
        asked.as_slice(),
        taken,
    )?;
    Ok(new_plan(resolution.number, manual, steps))
}
