// Laws of histories. Those of slots hold of each history whose base is one, and the others of each lawful history,
// whatever test says which bytes are a valid catalog.
ghost use Rattle.std.specs.Prelude.{◌≡◌, ◌≤◌, ◌<◌, ◌⊎◌, List, ℕ, Bool, true, Some, None, slice_get};
ghost use Rattle.cluster_objects.specs.Kinds.{is_plan_key, csv_at, subscription_at};
ghost use Rattle.cluster_objects.specs.declared.keys.Key.{Key};
ghost use Rattle.cluster_objects.specs.declared.keys.Stamp.{Stamp};
ghost use Rattle.cluster_objects.specs.declared.objects.Object.{Object};
ghost use Rattle.cluster_objects.specs.declared.objects.Write.{Write};
ghost use Rattle.cluster_objects.specs.declared.objects.Writer.TheVariants as writer;
ghost use Rattle.cluster_objects.specs.declared.plans.PlanPhase.TheVariants as phase;
ghost use Rattle.cluster_objects.specs.declared.plans.PlanStatus.{PlanStatus};
ghost use Rattle.cluster_objects.specs.declared.plans.Step.{Step};
ghost use Rattle.cluster_objects.specs.declared.statuses.CsvStatus.{CsvStatus};
ghost use Rattle.cluster_objects.specs.declared.statuses.CsvPhase.TheVariants as csv;
ghost use Rattle.cluster_objects.specs.declared.statuses.SubscriptionStatus.{SubscriptionStatus};
ghost use Rattle.cluster_objects.specs.declared.statuses.SubState.TheVariants as sub;
ghost use Rattle.cluster_history.specs.History.{History, After, IsBase, base_of, never_written, position, slot, slot_in, first_writes};
ghost use Rattle.cluster_history.specs.Views.{view, is_visible};
ghost use Rattle.lawful_history.specs.Lawful.{last_plan, IsNew, KeepsPhase, KeepsState};
ghost use Rattle.lawful_history.specs.Sound.{IsSoundBase, IsLawful};
ghost use Rattle.history_laws.specs.Edges.{PlanEdge, PhaseEdge, StepEdge};
ghost use Rattle.history_laws.specs.Steps.{PutsStep};

/// The base of a lawful history is sound.
pub fn bases_are_sound()
    ensures { (is_valid : List ℕ → Bool) (h : History) → IsLawful is_valid h → IsSoundBase is_valid (base_of h) }
{}

/// A beginning of a history has the length that it is asked for, if that is at least the base's and at most the
/// history's. A beginning of a beginning is one of the history, and shows the same.
pub fn beginnings_nest()
    ensures nest { (h : History) (a b : ℕ) → a ≤ b → first_writes a (first_writes b h) ≡ first_writes a h }
    ensures view { (h : History) (namespace : List ℕ) (a b : ℕ) → a ≤ b → view (first_writes b h) namespace a ≡ view h namespace a }
    ensures whole { (h : History) (a : ℕ) → position h ≤ a → first_writes a h ≡ h }
    ensures length { (h : History) (a : ℕ) → (base_of h).length ≤ a → a ≤ position h → position (first_writes a h) ≡ a }
    ensures base { (h : History) (a : ℕ) → base_of (first_writes a h) ≡ base_of h }
{}

/// A key's version never falls and is at most the history's length. A key that has one version at an older length
/// and now has the same slot at both, and so it is with what a view shows. A key of version 0 holds nothing, and no two
/// keys have another version in common.
pub fn slots_stay()
    ensures same { (h : History) (a : ℕ) (key : Key) → IsBase (base_of h)
        → (slot (first_writes a h) key).version ≡ (slot h key).version → slot (first_writes a h) key ≡ slot h key }
    ensures between { (h : History) (a b : ℕ) (key : Key) → IsBase (base_of h) → a ≤ b
        → (slot (first_writes a h) key).version ≡ (slot (first_writes b h) key).version → slot (first_writes a h) key ≡ slot (first_writes b h) key }
    ensures seen { (h : History) (namespace : List ℕ) (a : ℕ) (key : Key) → IsBase (base_of h) → is_visible namespace key ≡ true
        → (slot_in (view h namespace a).slots key).version ≡ (slot h key).version → slot_in (view h namespace a).slots key ≡ slot h key }
    ensures grows { (h : History) (a : ℕ) (key : Key) → IsBase (base_of h) → (slot (first_writes a h) key).version ≤ (slot h key).version }
    ensures bound { (h : History) (key : Key) → IsBase (base_of h) → (slot h key).version ≤ position h }
    ensures nothing { (h : History) (key : Key) → IsBase (base_of h) → (slot h key).version ≡ 0 → slot h key ≡ never_written }
    ensures apart { (h : History) (a b : Key) → IsBase (base_of h) → 0 < (slot h a).version → (slot h a).version ≡ (slot h b).version → a ≡ b }
{}

/// The first plan of a key is written by a resolver, not approved, with each step Unknown. It is in Planning, or in
/// RequiresApproval if it is manual, or Failed without a step.
pub fn plans_begin_new()
    ensures { (is_valid : List ℕ → Bool) (h : History) (w : Write) (key : Key) (new : PlanStatus) → IsLawful is_valid (After w h) → is_plan_key key ≡ true
        → last_plan h key ≡ None → last_plan (After w h) key ≡ Some new → (w.key ≡ key) × (w.by ≡ writer.Resolver) × IsNew new }
{}

/// One write leaves the newest plan of a key as it was, or approves it, or moves its phase or one of its steps along
/// one edge.
pub fn plans_go_by_edges()
    ensures { (is_valid : List ℕ → Bool) (h : History) (w : Write) (key : Key) (plan : PlanStatus) → IsLawful is_valid (After w h) → is_plan_key key ≡ true
        → last_plan h key ≡ Some plan → (new : PlanStatus) × (last_plan (After w h) key ≡ Some new) × PlanEdge plan new }
{}

/// By one write the state of a step stays, or goes from Unknown to Present or to Aimed, or from Aimed to Created or
/// to Overtaken. The step's key, its body and what it makes stay.
pub fn steps_go_by_edges()
    ensures { (is_valid : List ℕ → Bool) (h : History) (w : Write) (key : Key) (plan new : PlanStatus) (i : ℕ) (s : Step) → IsLawful is_valid (After w h) → is_plan_key key ≡ true
        → last_plan h key ≡ Some plan → last_plan (After w h) key ≡ Some new → slice_get plan.steps i ≡ Some s → (t : Step) × (slice_get new.steps i ≡ Some t) × StepEdge s t }
{}

/// By one write a plan's phase stays, or goes from Planning to Installing, from RequiresApproval to Installing if
/// the plan is approved, or from Installing to Complete if each step is Created or Present, or to Failed if a step
/// is Overtaken.
pub fn phases_go_by_edges()
    ensures { (is_valid : List ℕ → Bool) (h : History) (w : Write) (key : Key) (plan new : PlanStatus) → IsLawful is_valid (After w h) → is_plan_key key ≡ true
        → last_plan h key ≡ Some plan → last_plan (After w h) key ≡ Some new → (new.phase ≡ plan.phase) ⊎ PhaseEdge plan new.phase }
{}

/// A plan's cause stays.
pub fn causes_stay()
    ensures { (is_valid : List ℕ → Bool) (h : History) (a : ℕ) (key : Key) (plan new : PlanStatus) → IsLawful is_valid h → is_plan_key key ≡ true
        → last_plan (first_writes a h) key ≡ Some plan → last_plan h key ≡ Some new → new.cause ≡ plan.cause }
{}

/// A plan that is Complete or Failed stays so, with its steps.
pub fn ends_stay()
    ensures { (is_valid : List ℕ → Bool) (h : History) (a : ℕ) (key : Key) (plan new : PlanStatus) → IsLawful is_valid h → is_plan_key key ≡ true
        → last_plan (first_writes a h) key ≡ Some plan → last_plan h key ≡ Some new → (plan.phase ≡ phase.Complete) ⊎ (plan.phase ≡ phase.Failed)
        → (new.phase ≡ plan.phase) × (new.steps ≡ plan.steps) }
{}

/// A write with a stamp is the installer's. It puts the body of the step that the stamp names, the status that the
/// step makes and the owner of what stood there, at the step's key, which has the version that the step is aimed at.
pub fn steps_write_what_they_say()
    ensures { (is_valid : List ℕ → Bool) (h : History) (w : Write) (object : Object) (stamp : Stamp) → IsLawful is_valid (After w h)
        → w.object ≡ Some object → object.stamp ≡ Some stamp → PutsStep h w object stamp }
{}

/// A step's object is written over no CSV and no Subscription, and a new one has phase or state None. So the write of
/// a step changes no phase and no state, whatever the key.
pub fn steps_spare_operators()
    ensures csv { (is_valid : List ℕ → Bool) (h : History) (w : Write) (object : Object) (stamp : Stamp) → IsLawful is_valid (After w h)
        → w.object ≡ Some object → object.stamp ≡ Some stamp → csv_at w.key (slot h w.key).object ≡ None }
    ensures subscription { (is_valid : List ℕ → Bool) (h : History) (w : Write) (object : Object) (stamp : Stamp) → IsLawful is_valid (After w h)
        → w.object ≡ Some object → object.stamp ≡ Some stamp → subscription_at w.key (slot h w.key).object ≡ None }
    ensures phase { (is_valid : List ℕ → Bool) (h : History) (w : Write) (object : Object) (stamp : Stamp) (x : CsvStatus) → IsLawful is_valid (After w h)
        → w.object ≡ Some object → object.stamp ≡ Some stamp → csv_at w.key w.object ≡ Some x → x.phase ≡ csv.Nothing }
    ensures state { (is_valid : List ℕ → Bool) (h : History) (w : Write) (object : Object) (stamp : Stamp) (x : SubscriptionStatus) → IsLawful is_valid (After w h)
        → w.object ≡ Some object → object.stamp ≡ Some stamp → subscription_at w.key w.object ≡ Some x → x.state ≡ sub.Nothing }
    ensures phases { (is_valid : List ℕ → Bool) (h : History) (w : Write) (object : Object) (stamp : Stamp) (key : Key) → IsLawful is_valid (After w h)
        → w.object ≡ Some object → object.stamp ≡ Some stamp → KeepsPhase key (slot h key).object (slot (After w h) key).object }
    ensures states { (is_valid : List ℕ → Bool) (h : History) (w : Write) (object : Object) (stamp : Stamp) (key : Key) → IsLawful is_valid (After w h)
        → w.object ≡ Some object → object.stamp ≡ Some stamp → KeepsState key (slot h key).object (slot (After w h) key).object }
{}

/// A write of an InstallPlan's key, and one with a stamp, finds at its key what stood there at its `seen`. So what it
/// goes on with is as the writer saw it.
pub fn writes_find_what_was_seen()
    ensures plan { (is_valid : List ℕ → Bool) (h : History) (w : Write) (object : Object) → IsLawful is_valid (After w h)
        → w.object ≡ Some object → is_plan_key w.key ≡ true → slot (first_writes object.seen h) w.key ≡ slot h w.key }
    ensures step { (is_valid : List ℕ → Bool) (h : History) (w : Write) (object : Object) (stamp : Stamp) → IsLawful is_valid (After w h)
        → w.object ≡ Some object → object.stamp ≡ Some stamp → slot (first_writes object.seen h) w.key ≡ slot h w.key }
{}
