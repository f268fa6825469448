// The steps that are left of those in order.
ghost use Rattle.std.specs.Prelude.{◌≡◌, ◌++◌, ◌∷◌, [], IfOk, map, OnOk, if◌then◌else◌};
ghost use Rattle.std.specs.List.{list_any};
ghost use Rattle.cluster_objects.specs.Keys.{same_key};
ghost use Rattle.install_plan.specs.Plans as spec;

use crate::turns::Turned;
use cluster_objects::{Key, PlanFault, Step, compare_keys};
use olm_base::{Many, Memory};
use std::alloc::Global;

fn is_key(key: &Key, other: &Key) -> bool
    ensures { result ≡ same_key key.now other.now }
{
    compare_keys(key, other).is_eq()
}

fn is_same_step(step: &Step, other: &Step) -> bool
    ensures { result ≡ spec.is_same_step step.now other.now }
{
    is_key(&step.key, &other.key) && step.body == other.body
}

fn has_same(kept: &[Step], step: &Step) -> bool
    ensures { result ≡ list_any (spec.is_same_step step.now) kept.now }
{
    kept.iter().any(|other| is_same_step(step, other))
}

// Appends a step that isn't there.
fn keep(kept: &mut Many<Step>, step: Step) -> Result<(), Memory>
    ensures { OnOk result (kept.new ≡ (if list_any (spec.is_same_step step) kept.old then kept.old else kept.old ++ step ∷ [])) }
{
    if has_same(kept.as_slice(), &step) {
        return Ok(());
    }
    kept.push(step)
}

/// The steps without those that are equal to an earlier one.
pub(crate) fn first_ones(alloc: Global, turned: Vec<Turned>) -> Result<Many<Step>, Memory>
    ensures { IfOk result (λ kept. kept ≡ spec.first_ones (map (λ one. one.step) turned.items)) }
{
    let mut kept = Many::new(alloc);
    'steps: for one in turned {
        keep(&mut kept, one.step)?;
    }
    Ok(kept)
}

fn first_with(steps: &[Step], key: &Key) -> Option<usize>
    ensures { result ≡ spec.first_with steps.now key.now }
{
    steps.iter().position(|step| is_key(&step.key, key))
}

/// The first step whose key an earlier one has, if there is one.
pub(crate) fn same_key_fault(steps: &[Step]) -> Option<PlanFault>
    ensures { result ≡ spec.same_key_fault steps.now }
{
    for (place, step) in steps.iter().enumerate() {
        let first = first_with(steps, &step.key).unwrap_or(place);
        if first < place {
            return Some(PlanFault::SameKey {
                first: first as u64,
                second: place as u64,
            });
        }
    }
    None
}
