// Laws of views and of stores.
ghost use Rattle.std.specs.Prelude.{◌≡◌, Bool, List, None, true, false, ℕ};
ghost use Rattle.cluster_objects.specs.declared.keys.Key.{Key};
ghost use Rattle.cluster_objects.specs.declared.objects.Write.{Write};
ghost use Rattle.cluster_history.specs.History.{History, IsHistory, IsInOrder, base_of, first_writes, slot, slot_in};
ghost use Rattle.cluster_history.specs.Views.{view, is_visible};
ghost use Rattle.object_store.specs.Puts.{Puts};
ghost use Rattle.object_store.specs.Seen.{slot_seen};
ghost use Rattle.object_store.specs.declared.cluster.PutAnswer.{PutAnswer};

/// A view is in the order of its keys, each once. Of a key that its namespace sees it shows the slot, and of any
/// other key nothing.
pub fn views_show()
    ensures order { (h : History) (namespace : List ℕ) (a : ℕ) → IsInOrder (base_of h).slots → IsInOrder (view h namespace a).slots }
    ensures seen { (h : History) (namespace : List ℕ) (a : ℕ) (key : Key) → is_visible namespace key ≡ true → slot_in (view h namespace a).slots key ≡ slot (first_writes a h) key }
    ensures unseen { (h : History) (namespace : List ℕ) (a : ℕ) (key : Key) → is_visible namespace key ≡ false → slot_seen (view h namespace a).slots key ≡ None }
{}

/// Whatever a put answers, the store still holds a history, each of whose writes expects its key's version at that
/// point.
pub fn puts_keep_histories()
    ensures { (room : Bool) (h : History) (w : Write) (new : History) (answer : PutAnswer) → IsHistory h → Puts room h w new answer → IsHistory new }
{}
