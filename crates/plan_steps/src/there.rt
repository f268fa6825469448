// What a view shows at a step's key.
ghost use Rattle.std.specs.Prelude.{◌≡◌, ◌==◌, ◌||◌, Some, not, option_copied};
ghost use Rattle.std.specs.List.{list_any};
ghost use Rattle.cluster_objects.specs.Stamps.{same_stamp, times};
ghost use Rattle.lawful_history.specs.Installing as spec;
ghost use Rattle.plan_steps.specs.Shown.{slot_shown};

use cluster_history::Slot;
use cluster_objects::{
    Key, Object, Stamp, Status, Step, StepState, is_csv_key, is_subscription_key,
};

pub(crate) fn version_of(there: Option<&Slot>) -> u64
    ensures { result ≡ (slot_shown (option_copied there.entry)).version }
{
    match there {
        Some(slot) => slot.version,
        None => 0,
    }
}

pub(crate) fn object_of(there: Option<&Slot>) -> Option<&Object>
    ensures { option_copied result ≡ (slot_shown (option_copied there.entry)).object }
{
    match there {
        Some(slot) => slot.object.as_ref(),
        None => None,
    }
}

fn is_same_stamp(stamp: &Stamp, other: &Stamp) -> bool
    ensures { result ≡ same_stamp stamp.now other.now }
{
    stamp == other
}

fn has_stamp(stamps: &[Stamp], stamp: &Stamp) -> bool
    ensures { result ≡ list_any (same_stamp stamp.now) stamps.now }
{
    stamps.iter().any(|other| is_same_stamp(stamp, other))
}

fn is_carried(stamps: &[Stamp], stamp: &Stamp) -> bool
    ensures { result ≡ not (times stamp.now stamps.now == 0) }
{
    has_stamp(stamps, stamp)
}

/// Whether a write of the key carried the stamp.
#[tactic(auto, unfolding(cluster_objects::specs::Stamps::times))]
pub(crate) fn is_stamped(there: Option<&Slot>, stamp: &Stamp) -> bool
    ensures { result ≡ not (times stamp.now (slot_shown (option_copied there.entry)).stamps == 0) }
{
    match there {
        Some(slot) => is_carried(slot.stamps.as_slice(), stamp),
        None => false,
    }
}

fn is_kept(key: &Key, object: &Object) -> bool
    ensures { result ≡ spec.is_kept key.now (Some object.now) }
{
    match &object.status {
        Status::Csv(_) => is_csv_key(key),
        Status::Subscription(_) => is_subscription_key(key),
        _ => false,
    }
}

fn has_body(object: &Object, step: &Step) -> bool
    ensures { result ≡ spec.has_body (Some object.now) step.now.body }
{
    object.body.as_slice() == step.body.as_slice()
}

fn is_present(there: Option<&Slot>, step: &Step) -> bool
    ensures { result
        ≡ spec.has_body (slot_shown (option_copied there.entry)).object step.now.body
        || spec.is_kept step.now.key (slot_shown (option_copied there.entry)).object }
{
    match object_of(there) {
        Some(object) => has_body(object, step) || is_kept(&step.key, object),
        None => false,
    }
}

/// What an Unknown step becomes.
pub(crate) fn aim(there: Option<&Slot>, step: &Step) -> StepState
    ensures { result ≡ spec.aim (slot_shown (option_copied there.entry)) step.now }
{
    if is_present(there, step) {
        StepState::Present
    } else {
        StepState::Aimed {
            version: version_of(there),
        }
    }
}
