// Theorems of histories that are lawful by roles. The test `is_valid` says which bytes are a valid catalog; it may be
// any that passes each one.
ghost use Rattle.std.specs.Prelude.{◌≡◌, ◌≤◌, List, ℕ, Bool, true, false, Some, slice_get};
ghost use Rattle.cluster_objects.specs.Kinds.{is_plan_key};
ghost use Rattle.cluster_objects.specs.declared.keys.Key.{Key};
ghost use Rattle.cluster_objects.specs.declared.keys.Stamp.{Stamp};
ghost use Rattle.cluster_objects.specs.declared.plans.PlanStatus.{PlanStatus};
ghost use Rattle.cluster_objects.specs.declared.plans.Step.{Step};
ghost use Rattle.cluster_objects.specs.declared.plans.StepState.TheVariants.{Created};
ghost use Rattle.cluster_history.specs.History.{History, carried, first_writes};
ghost use Rattle.lawful_history.specs.Installing.{key_of, step_stamp};
ghost use Rattle.lawful_history.specs.Lawful.{last_plan, started};
ghost use Rattle.lawful_history.specs.Sound.{IsLawful};
ghost use Rattle.lawful_events.specs.Runs.{Accepts};
ghost use Rattle.lawful_roles.specs.Roles.{IsKept};

use csv_phases::writes_are_aside;
use install_plan::plans_are_new;
use lawful_events::users_writes_are_allowed;
use lawful_history::steps_are_written_once;
use lease_fence::grants_are_users_writes;

/// Such a history is lawful for the theorem on histories.
pub fn roles_are_lawful()
    ensures lawful { (is_valid : List ℕ → Bool) (h : History) → Accepts is_valid → IsKept is_valid h → IsLawful is_valid h }
{
    users_writes_are_allowed();
    grants_are_users_writes();
    writes_are_aside();
    plans_are_new();
}

/// Each step of a plan is written at most once, exactly once where it was marked Created at any moment, and never where
/// the plan was never in Installing, or is manual and not approved.
pub fn each_step_is_written_once()
    ensures most { (is_valid : List ℕ → Bool) (h : History) (stamp : Stamp) → Accepts is_valid → IsKept is_valid h → carried stamp h ≤ 1 }
    ensures created { (is_valid : List ℕ → Bool) (h : History) (a : ℕ) (key : Key) (plan : PlanStatus) (i : ℕ) (step : Step) → Accepts is_valid → IsKept is_valid h
        → is_plan_key key ≡ true → last_plan (first_writes a h) key ≡ Some plan → slice_get plan.steps i ≡ Some step → step.state ≡ Created
        → carried (step_stamp key plan i) h ≡ 1 }
    ensures never { (is_valid : List ℕ → Bool) (h : History) (stamp : Stamp) → Accepts is_valid → IsKept is_valid h → started h (key_of stamp) ≡ false → carried stamp h ≡ 0 }
    ensures unapproved { (is_valid : List ℕ → Bool) (h : History) (key : Key) (plan : PlanStatus) (i : ℕ) → Accepts is_valid → IsKept is_valid h
        → is_plan_key key ≡ true → last_plan h key ≡ Some plan → plan.manual ≡ true → plan.approved ≡ false → carried (step_stamp key plan i) h ≡ 0 }
{
    roles_are_lawful();
    steps_are_written_once();
}
