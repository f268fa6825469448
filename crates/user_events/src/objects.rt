// Objects that are removed, approved or found ready.
ghost use Rattle.std.specs.Prelude.{◌≡◌, IfOk, true};
ghost use Rattle.std.specs.Option.{option_map};
ghost use Rattle.olm_base.specs.Outcome.{Gives};
ghost use Rattle.user_events.specs.Reasons.{is_free};
ghost use Rattle.user_events.specs.Wishes as spec;

use crate::kept::{deployment_at, plan_at};
use crate::refusals::{Refusal, refused};
use cluster_objects::{
    Key, Object, PlanPhase, PlanStatus, Readiness, Status, is_claims_key, is_lease_key,
    is_resolution_key,
};
use olm_base::Memory;
use std::alloc::Global;

fn removed(alloc: Global, old: Option<&Object>) -> Result<Option<Object>, Refusal>
    ensures { Gives is_free (spec.removed (option_map (λ object. object.now) old.entry)) result }
{
    match old {
        Some(_) => Ok(None),
        None => Err(refused(alloc, "absent")),
    }
}

/// Nothing is to stand there.
pub(crate) fn deleted(
    alloc: Global,
    key: &Key,
    old: Option<&Object>,
) -> Result<Option<Object>, Refusal>
    ensures { Gives is_free (spec.deleted key.now (option_map (λ object. object.now) old.entry)) result }
{
    if is_resolution_key(key) {
        return Err(refused(alloc, "forbidden Resolution"));
    }
    if is_claims_key(key) {
        return Err(refused(alloc, "forbidden Claims"));
    }
    if is_lease_key(key) {
        return Err(refused(alloc, "forbidden Lease"));
    }
    removed(alloc, old)
}

/// What stands there, with another status.
pub(crate) fn with_status(object: &Object, status: Status, seen: u64) -> Result<Object, Memory>
    ensures { IfOk result (λ new. new ≡ spec.with_status object.now status seen) }
{
    Ok(Object {
        status,
        body: object.body.clone()?,
        owner: object.owner.clone()?,
        stamp: None,
        seen,
    })
}

fn is_waiting(plan: &PlanStatus) -> bool
    ensures { result ≡ spec.is_waiting plan.now }
{
    plan.phase == PlanPhase::RequiresApproval && !plan.approved
}

fn approved_status(plan: &PlanStatus) -> Result<Status, Memory>
    ensures { IfOk result (λ status. status ≡ Status.Plan (record plan.now { approved = true })) }
{
    let mut plan = plan.clone()?;
    plan.approved = true;
    Ok(Status::Plan(plan))
}

fn approved_plan(
    alloc: Global,
    object: &Object,
    seen: u64,
    plan: Option<&PlanStatus>,
) -> Result<Option<Object>, Refusal>
    ensures { Gives is_free (spec.approved_plan object.now seen (option_map (λ plan. plan.now) plan.entry)) result }
{
    let Some(plan) = plan else {
        return Err(refused(alloc, "absent"));
    };
    if !is_waiting(plan) {
        return Err(refused(alloc, "not-waiting"));
    }
    Ok(Some(with_status(object, approved_status(plan)?, seen)?))
}

/// The plan that stands there, approved.
pub(crate) fn approved(
    alloc: Global,
    key: &Key,
    old: Option<&Object>,
    seen: u64,
) -> Result<Option<Object>, Refusal>
    ensures { Gives is_free (spec.approved key.now (option_map (λ object. object.now) old.entry) seen) result }
{
    match old {
        Some(object) => approved_plan(alloc, object, seen, plan_at(key, object)),
        None => Err(refused(alloc, "absent")),
    }
}

fn made_ready(
    alloc: Global,
    state: Readiness,
    object: &Object,
    seen: u64,
    old: Option<Readiness>,
) -> Result<Option<Object>, Refusal>
    ensures { Gives is_free (spec.made_ready state object.now seen old) result }
{
    match old {
        Some(_) => Ok(Some(with_status(object, Status::Deployment(state), seen)?)),
        None => Err(refused(alloc, "absent")),
    }
}

/// The deployment that stands there, as far as it is now.
pub(crate) fn readied(
    alloc: Global,
    state: Readiness,
    key: &Key,
    old: Option<&Object>,
    seen: u64,
) -> Result<Option<Object>, Refusal>
    ensures { Gives is_free (spec.readied state key.now (option_map (λ object. object.now) old.entry) seen) result }
{
    match old {
        Some(object) => made_ready(alloc, state, object, seen, deployment_at(key, Some(object))),
        None => Err(refused(alloc, "absent")),
    }
}
