// The law of histories: of each history that begins at a sound base and whose writes are allowed, whatever the age
// of the views that the writers saw, and whether or not plans were removed while they were under way. The test
// `is_valid` says which bytes are a valid catalog.
ghost use Rattle.std.specs.Prelude.{◌≡◌, ◌≤◌, ◌<◌, ◌+◌, ◌*◌, ◌^◌, ◌⊎◌, List, ℕ, Bool, true, false, None, Some, length, slice_get};
ghost use Rattle.cluster_objects.specs.Kinds.{is_plan_key, as_plan};
ghost use Rattle.cluster_objects.specs.declared.keys.Key.{Key};
ghost use Rattle.cluster_objects.specs.declared.keys.Stamp.{Stamp};
ghost use Rattle.cluster_objects.specs.declared.objects.Write.{Write};
ghost use Rattle.cluster_objects.specs.declared.plans.PlanStatus.{PlanStatus};
ghost use Rattle.cluster_objects.specs.declared.plans.Step.{Step};
ghost use Rattle.cluster_objects.specs.declared.plans.StepState.TheVariants.{Created, Overtaken};
ghost use Rattle.cluster_history.specs.History.{History, Start, After, empty, state, slot, position, first_writes, carried};
ghost use Rattle.lawful_history.specs.Counting.{writes_for};
ghost use Rattle.lawful_history.specs.Installing.{key_of, step_stamp};
ghost use Rattle.lawful_history.specs.Lawful.{last_plan, started, PlanLater, IsPlan, IsNeutral, IsAllowed};
ghost use Rattle.lawful_history.specs.Sound.{IsSound, IsSoundBase, IsLawful};

/// Each stamp is carried at most once. It is carried exactly once where its step was marked Created at any moment,
/// and not at all where the step was marked Overtaken, where the plan never was in Installing, or where the plan is
/// manual and not approved.
pub fn steps_are_written_once()
    ensures most { (is_valid : List ℕ → Bool) (h : History) (stamp : Stamp) → IsLawful is_valid h → carried stamp h ≤ 1 }
    ensures created { (is_valid : List ℕ → Bool) (h : History) (a : ℕ) (key : Key) (plan : PlanStatus) (i : ℕ) (step : Step) → IsLawful is_valid h → is_plan_key key ≡ true
        → last_plan (first_writes a h) key ≡ Some plan → slice_get plan.steps i ≡ Some step → step.state ≡ Created → carried (step_stamp key plan i) h ≡ 1 }
    ensures overtaken { (is_valid : List ℕ → Bool) (h : History) (a : ℕ) (key : Key) (plan : PlanStatus) (i : ℕ) (step : Step) → IsLawful is_valid h → is_plan_key key ≡ true
        → last_plan (first_writes a h) key ≡ Some plan → slice_get plan.steps i ≡ Some step → step.state ≡ Overtaken → carried (step_stamp key plan i) h ≡ 0 }
    ensures never { (is_valid : List ℕ → Bool) (h : History) (stamp : Stamp) → IsLawful is_valid h → started h (key_of stamp) ≡ false → carried stamp h ≡ 0 }
    ensures unapproved { (is_valid : List ℕ → Bool) (h : History) (key : Key) (plan : PlanStatus) (i : ℕ) → IsLawful is_valid h → is_plan_key key ≡ true
        → last_plan h key ≡ Some plan → plan.manual ≡ true → plan.approved ≡ false → carried (step_stamp key plan i) h ≡ 0 }
{}

/// A plan bears its number in its key's name. Its number, its count of steps, and the key, the body and what is made
/// of each step stay. A step's state goes from Unknown to Present, or from Unknown to Aimed and then to Created or
/// Overtaken, and stays.
pub fn plans_stay()
    ensures named { (is_valid : List ℕ → Bool) (h : History) (a : ℕ) (key : Key) (plan : PlanStatus) → IsLawful is_valid h → is_plan_key key ≡ true
        → last_plan (first_writes a h) key ≡ Some plan → IsPlan key plan }
    ensures later { (is_valid : List ℕ → Bool) (h : History) (a : ℕ) (key : Key) (plan : PlanStatus) → IsLawful is_valid h → is_plan_key key ≡ true
        → last_plan (first_writes a h) key ≡ Some plan → (later : PlanStatus) × (last_plan h key ≡ Some later) × PlanLater plan later }
{}

/// A plan's number is used once in a namespace, also after the plan was removed: plans of one number are one plan,
/// a plan that was removed stays removed, and a plan is written where its key was never written or goes on with the
/// plan that is there.
pub fn numbers_are_used_once()
    ensures one { (is_valid : List ℕ → Bool) (h : History) (a b : ℕ) (key other : Key) (plan same : PlanStatus) → IsLawful is_valid h → is_plan_key key ≡ true → is_plan_key other ≡ true
        → last_plan (first_writes a h) key ≡ Some plan → last_plan (first_writes b h) other ≡ Some same → key.namespace ≡ other.namespace → plan.number ≡ same.number
        → (key ≡ other) × (later : PlanStatus) × (last_plan h key ≡ Some later) × PlanLater plan later × PlanLater same later }
    ensures gone { (is_valid : List ℕ → Bool) (h : History) (a : ℕ) (key : Key) → IsLawful is_valid h → is_plan_key key ≡ true
        → 0 < (slot (first_writes a h) key).version → (slot (first_writes a h) key).object ≡ None → (slot h key).object ≡ None }
    ensures written { (is_valid : List ℕ → Bool) (h : History) (w : Write) (plan : PlanStatus) → IsLawful is_valid (After w h) → is_plan_key w.key ≡ true → as_plan w.object ≡ Some plan
        → IsPlan w.key plan × (((slot h w.key).version ≡ 0) ⊎ ((old : PlanStatus) × (as_plan (slot h w.key).object ≡ Some old) × PlanLater old plan)) }
{}

/// The installer makes at most three writes for each step of a plan, and two for the plan's phases.
pub fn installer_writes_are_few()
    ensures plan { (is_valid : List ℕ → Bool) (h : History) (key : Key) (plan : PlanStatus) → IsLawful is_valid h → is_plan_key key ≡ true
        → last_plan h key ≡ Some plan → writes_for key h ≤ 3 * length plan.steps + 2 }
    ensures none { (is_valid : List ℕ → Bool) (h : History) (key : Key) → IsLawful is_valid h → is_plan_key key ≡ true → last_plan h key ≡ None → writes_for key h ≡ 0 }
{}

/// Neutral writes are allowed, so parts that write only such ones leave this law as it is.
pub fn neutral_writes_are_allowed()
    ensures { (is_valid : List ℕ → Bool) (h : History) (w : Write) → IsNeutral h w → IsAllowed is_valid h w }
{}

/// The history with nothing in it is lawful, and so is each beginning of a lawful history.
pub fn histories_begin()
    ensures empty { (is_valid : List ℕ → Bool) → IsLawful is_valid (Start empty) }
    ensures beginning { (is_valid : List ℕ → Bool) (h : History) (a : ℕ) → IsLawful is_valid h → IsLawful is_valid (first_writes a h) }
{}

/// The state after a lawful history is sound, and so it is a base that a history may begin with, as long as its
/// length is at most 2^62.
pub fn states_are_sound()
    ensures sound { (is_valid : List ℕ → Bool) (h : History) → IsLawful is_valid h → IsSound is_valid (state h) }
    ensures base { (is_valid : List ℕ → Bool) (h : History) → IsLawful is_valid h → position h ≤ 2 ^ 62 → IsSoundBase is_valid (record { length = position h; slots = state h }) }
{}
