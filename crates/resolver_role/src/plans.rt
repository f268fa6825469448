// The write of a plan for the resolution that stands.
ghost use Rattle.std.specs.Prelude.{◌≡◌, false, IfOk};
ghost use Rattle.lawful_history.specs.Installing.{install_key};
ghost use Rattle.install_plan.specs.Plans as plan;
ghost use Rattle.controller_rules.specs.Resolving as spec;
ghost use Rattle.controller_rules.specs.Enabled.{IsResolversFirst};

use crate::naming::install_key;
use crate::objects::new_object;
use cluster_objects::{
    Key, PlanFault, PlanPhase, PlanStatus, ResolutionStatus, Status, Taken, Write, Writer,
};
use install_plan::{PlanRefusal, is_manual, plan_of, taken_by};
use object_store::View;
use olm_base::{Many, Memory, Text};
use std::alloc::Global;
use view_basis::subscriptions_of;
use view_slots::version_at;

fn is_empty(taken: &[Taken]) -> bool
    ensures { result ≡ spec.is_empty taken.now }
{
    match taken {
        [] => true,
        [_, ..] => false,
    }
}

// Whether the resolution takes something and the key of its plan was never written.
fn has_no_plan(view: &View, key: &Key, found: &ResolutionStatus) -> bool
    requires { key.now ≡ install_key view.now.namespace found.now.number }
    ensures { result ≡ spec.has_no_plan view.now found.now }
{
    version_at(view, key) == 0 && !is_empty(taken_by(&found.outcome))
}

fn failed_plan(
    alloc: Global,
    view: &View,
    found: &ResolutionStatus,
    fault: PlanFault,
) -> Result<PlanStatus, Memory>
    ensures { IfOk result (λ failed. failed ≡ plan.failed_plan found.now view.now fault) }
{
    let subscriptions = subscriptions_of(alloc, view)?;
    Ok(PlanStatus {
        number: found.number,
        manual: is_manual(subscriptions.as_slice(), taken_by(&found.outcome)),
        approved: false,
        phase: PlanPhase::Failed,
        cause: Some(fault),
        steps: Many::new(alloc),
    })
}

// The plan of the resolution, or the failed one where there is a cause.
fn plan_made(alloc: Global, view: &View, found: &ResolutionStatus) -> Result<PlanStatus, Memory>
    ensures { IfOk result (λ made. made ≡ spec.plan_made view.now found.now) }
{
    match plan_of(alloc, found, view) {
        Ok(plan) => Ok(plan),
        Err(PlanRefusal::Cause(fault)) => failed_plan(alloc, view, found, fault),
        Err(PlanRefusal::Memory) => Err(Memory),
    }
}

fn new_plan_write(
    alloc: Global,
    view: &View,
    key: Key,
    found: &ResolutionStatus,
) -> Result<Write, Memory>
    requires { key ≡ install_key view.now.namespace found.now.number }
    ensures { IfOk result (λ write. write ≡ spec.new_plan_write view.now found.now) }
{
    let plan = plan_made(alloc, view, found)?;
    Ok(Write {
        by: Writer::Resolver,
        expect: 0,
        key,
        object: Some(new_object(alloc, view, Status::Plan(plan))),
    })
}

/// The write of a plan for the resolution that stands, and None exactly where it has one or takes nothing.
#[tactic(auto, using(crate::proofs::Writing::is_done, crate::proofs::Writing::plans))]
pub(crate) fn plan_write(
    alloc: Global,
    view: &View,
    namespace: &Text,
    found: &ResolutionStatus,
) -> Result<Option<Write>, Memory>
    requires place { namespace.now ≡ view.now.namespace }
    requires awake { spec.is_resting view.now ≡ false }
    requires stands { spec.Stands view.now found.now }
    ensures { IfOk result (λ write. IsResolversFirst view.now write) }
{
    let key = install_key(alloc, namespace, found.number)?;
    if !has_no_plan(view, &key, found) {
        return Ok(None);
    }
    Ok(Some(new_plan_write(alloc, view, key, found)?))
}
