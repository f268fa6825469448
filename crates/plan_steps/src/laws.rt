// Laws of the installer's writes.
ghost use Rattle.std.specs.Prelude.{◌≡◌, ◌≤◌, List, ℕ, Bool, Some, slice_get};
ghost use Rattle.std.specs.List.Sorted.{IsPermutation};
ghost use Rattle.cluster_objects.specs.declared.objects.Write.{Write};
ghost use Rattle.cluster_history.specs.History.{History, base_of, position};
ghost use Rattle.cluster_history.specs.Views.{View, view};
ghost use Rattle.lawful_history.specs.Installing.{installer_writes};
ghost use Rattle.lawful_history.specs.Lawful.{IsAllowed};
ghost use Rattle.plan_steps.specs.Laws.{writes_by_key};

/// The law of histories allows each of the installer's writes in a view, however old the view is. Whether the key
/// still has the version that the write expects is for the store to say.
pub fn installer_writes_are_allowed()
    ensures { (is_valid : List ℕ → Bool) (h : History) (namespace : List ℕ) (a i : ℕ) (w : Write)
        → (base_of h).length ≤ a → a ≤ position h
        → slice_get (installer_writes (view h namespace a)) i ≡ Some w → IsAllowed is_valid h w }
{}

/// The installer's writes are those of the view's plans: one for each key at which a plan stands that has one.
pub fn plans_have_one_write_each()
    ensures { (view : View) → IsPermutation (writes_by_key view) (installer_writes view) }
{}
