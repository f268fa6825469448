// Whether a plan is under way.
ghost use Rattle.std.specs.Prelude.{◌≡◌, option_copied};
ghost use Rattle.csv_phases.specs.States as states;
ghost use Rattle.controller_rules.specs.Resolving as spec;

use cluster_objects::{Key, PlanPhase, PlanStatus, Status, is_plan_key};
use object_store::{Shared, View};
use olm_base::Name;

fn is_under_way(phase: PlanPhase) -> bool
    ensures { result ≡ states.is_under_way phase }
{
    match phase {
        PlanPhase::Planning | PlanPhase::RequiresApproval | PlanPhase::Installing => true,
        PlanPhase::Nothing | PlanPhase::Complete | PlanPhase::Failed => false,
    }
}

// The plan of the slot, if one of this namespace stands there.
fn plan_in<'a>(namespace: &Name, entry: &'a (Key, Shared)) -> Option<&'a PlanStatus>
    ensures { option_copied result ≡ states.plan_in namespace.now entry.now }
{
    if entry.0.namespace.as_slice() != namespace.as_bytes() || !is_plan_key(&entry.0) {
        return None;
    }
    match &entry.1.slot().object {
        None => None,
        Some(object) => match &object.status {
            Status::Plan(plan) => Some(plan),
            _ => None,
        },
    }
}

fn has_plan_under_way(view: &View, entry: &(Key, Shared)) -> bool
    ensures { result ≡ states.has_plan_under_way view.now entry.now }
{
    match plan_in(view.namespace(), entry) {
        Some(plan) => is_under_way(plan.phase),
        None => false,
    }
}

/// Whether a plan of the view's namespace is under way, so that the resolver rests.
pub(crate) fn is_resting(view: &View) -> bool
    ensures { result ≡ spec.is_resting view.now }
{
    view.slots()
        .iter()
        .any(|entry| has_plan_under_way(view, entry))
}
