// Laws of what the events of a user write. They hold of each history, however it came to be, where nothing else is
// said. The test `is_valid` says which bytes are a valid catalog.
ghost use Rattle.std.specs.Prelude.{◌≡◌, List, ℕ, Bool, true, false, Option, Result, Ok, All};
ghost use Rattle.cluster_objects.specs.Kinds.{is_catalog_key, is_plan_key, is_resolution_key};
ghost use Rattle.cluster_objects.specs.declared.keys.Key.{Key};
ghost use Rattle.cluster_objects.specs.declared.objects.Write.{Write};
ghost use Rattle.cluster_history.specs.History.{History, After, slot};
ghost use Rattle.event_script.specs.declared.events.Event.{Event};
ghost use Rattle.lawful_history.specs.Lawful.{IsAllowed, IsNeutral, KeepsPhase, KeepsState};
ghost use Rattle.lawful_history.specs.Sound.{IsLawful};
ghost use Rattle.user_events.specs.Asked.{apply};
ghost use Rattle.folder_events.specs.Events.{Asks};
ghost use Rattle.event_script.specs.Ranges.{IsInRange};
ghost use Rattle.event_runs.specs.Runs.{Files, Runs};
ghost use Rattle.event_runs.specs.declared.halts.Halt.{Halt};
ghost use Rattle.lawful_events.specs.Asks.{IsUsersWrite};
ghost use Rattle.lawful_events.specs.Keeps.{KeepsCatalog, KeepsPlan, KeepsResolution};
ghost use Rattle.lawful_events.specs.Rules.{KeepsRules};
ghost use Rattle.lawful_events.specs.Runs.{Accepts, GoesOnByUsers};

/// A write that an event asks for keeps the rules of users.
pub fn users_writes_keep_the_rules()
    ensures { (files : Files) (h : History) (cause : Event) (w : Write) → Asks files h cause (Ok w) → KeepsRules h cause w }
{}

/// A user's write is allowed after the history.
pub fn users_writes_are_allowed()
    ensures { (is_valid : List ℕ → Bool) → Accepts is_valid → (h : History) (w : Write) → IsUsersWrite h w → IsAllowed is_valid h w }
{}

/// What an apply writes is neutral, and so is each user's write of no plan, resolution or catalog.
pub fn applied_objects_are_neutral()
    ensures applied { (h : History) (body : List ℕ) (w : Write) → apply h body ≡ Ok w → IsNeutral h w }
    ensures others { (h : History) (w : Write) → IsUsersWrite h w → is_plan_key w.key ≡ false → is_resolution_key w.key ≡ false → is_catalog_key w.key ≡ false → IsNeutral h w }
{}

/// A user changes no phase of a CSV and no state of a subscription; a new one has none.
pub fn phases_stay()
    ensures phase { (h : History) (w : Write) (key : Key) → IsUsersWrite h w → KeepsPhase key (slot h key).object (slot (After w h) key).object }
    ensures state { (h : History) (w : Write) (key : Key) → IsUsersWrite h w → KeepsState key (slot h key).object (slot (After w h) key).object }
{}

/// A user removes no resolution, and changes nothing of what it decided, and of what.
pub fn resolutions_stay()
    ensures { (h : History) (w : Write) (key : Key) → IsUsersWrite h w → KeepsResolution key (slot h key).object (slot (After w h) key).object }
{}

/// A user makes no plan, and changes one only by approving it where it waits for that.
pub fn plans_are_only_approved()
    ensures { (h : History) (w : Write) (key : Key) → IsUsersWrite h w → KeepsPlan key (slot h key).object (slot (After w h) key).object }
{}

/// A catalog that a user writes is valid; one that stays is as it was.
pub fn catalogs_stay()
    ensures { (h : History) (w : Write) (key : Key) → IsUsersWrite h w → KeepsCatalog key (slot h key).object (slot (After w h) key).object }
{}

/// A lawful history stays lawful by a user's write, whatever test says which bytes are a valid catalog, as long as it
/// passes each one.
pub fn histories_stay_lawful()
    ensures { (is_valid : List ℕ → Bool) → Accepts is_valid → (h : History) (w : Write) → IsUsersWrite h w → IsLawful is_valid h → IsLawful is_valid (After w h) }
{}

/// A run over a store that tells what it holds leaves a history that goes on from the old one by users' writes, however
/// the run ends, and that is lawful where the old one was.
pub fn runs_stay_lawful()
    ensures extends { (fits : History → Write → Bool) (limit : ℕ) (files : Files) (h new : History) (es : List Event) (before now : Option (List ℕ)) (result : Result Unit Halt)
        → All IsInRange es → Runs true fits limit files h es new before now result → GoesOnByUsers h new }
    ensures lawful { (is_valid : List ℕ → Bool) → Accepts is_valid → (h new : History) → GoesOnByUsers h new → IsLawful is_valid h → IsLawful is_valid new }
{}
