// The plans of a namespace that are under way.
ghost use Rattle.std.specs.Prelude.{◌≡◌, false};
ghost use Rattle.std.specs.List.{list_any};
ghost use Rattle.std.specs.Option.{option_copied, option_map_or};
ghost use Rattle.op_properties.specs.Offers.{is_of};
ghost use Rattle.csv_phases.specs.States as spec;

use cluster_objects::{CsvStatus, Key, Made, PlanPhase, PlanStatus, Status, Step, is_plan_key};
use object_store::{Shared, View};
use olm_base::Name;

fn is_under_way(phase: PlanPhase) -> bool
    ensures { result ≡ spec.is_under_way phase }
{
    match phase {
        PlanPhase::Planning | PlanPhase::RequiresApproval | PlanPhase::Installing => true,
        PlanPhase::Nothing | PlanPhase::Complete | PlanPhase::Failed => false,
    }
}

// The plan of the slot, if one of this namespace stands there.
fn plan_in<'a>(namespace: &Name, entry: &'a (Key, Shared)) -> Option<&'a PlanStatus>
    ensures { option_copied result ≡ spec.plan_in namespace.now entry.now }
{
    if entry.0.namespace.as_slice() != namespace.as_bytes() || !is_plan_key(&entry.0) {
        return None;
    }
    match &entry.1.slot().object {
        None => None,
        Some(object) => match &object.status {
            Status::Plan(plan) => Some(plan),
            _ => None,
        },
    }
}

fn is_csv_of(package: &Name, csv: &CsvStatus) -> bool
    ensures { result ≡ is_of «package».now csv.now.package }
{
    match &csv.package {
        Some(other) => package == other,
        None => false,
    }
}

fn makes_csv_of(package: &Name, step: &Step) -> bool
    ensures { result ≡ spec.makes_csv_of «package».now step.now }
{
    match &step.made {
        Made::Csv(csv) => is_csv_of(package, csv),
        Made::Plain | Made::Subscription(_) | Made::Deployment(_) => false,
    }
}

fn some_makes_csv_of(package: &Name, steps: &[Step]) -> bool
    ensures { result ≡ list_any (spec.makes_csv_of «package».now) steps.now }
{
    steps.iter().any(|step| makes_csv_of(package, step))
}

fn brings(package: &Name, plan: &PlanStatus) -> bool
    ensures { result ≡ spec.brings «package».now plan.now }
{
    is_under_way(plan.phase) && some_makes_csv_of(package, plan.steps.as_slice())
}

// Whether a plan of this namespace stands in the slot that brings the package.
fn brings_in(namespace: &Name, package: &Name, entry: &(Key, Shared)) -> bool
    ensures { result
        ≡ option_map_or (spec.brings «package».now) (spec.plan_in namespace.now entry.now) false }
{
    match plan_in(namespace, entry) {
        Some(plan) => brings(package, plan),
        None => false,
    }
}

/// Whether a plan of the view's namespace brings this package. It takes no memory.
pub(crate) fn is_pending(view: &View, package: &Name) -> bool
    ensures { result ≡ spec.is_pending view.now «package».now }
{
    let namespace = view.namespace();
    view.slots()
        .iter()
        .any(|entry| brings_in(namespace, package, entry))
}
