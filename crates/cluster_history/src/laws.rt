// Laws of the definitions of a history.
ghost use Rattle.std.specs.Prelude.{◌≡◌, ◌≢◌, ◌≤◌, ◌+◌, List, ℕ};
ghost use Rattle.cluster_objects.specs.declared.keys.Key.{Key};
ghost use Rattle.cluster_objects.specs.declared.keys.Stamp.{Stamp};
ghost use Rattle.cluster_objects.specs.declared.objects.Write.{Write};
ghost use Rattle.cluster_history.specs.History.{History, After, after_all, IsInOrder, base_of, state, position, slot, after_write, last_position, last_object, all_stamps, times_in, carried};
ghost use Rattle.cluster_history.specs.Views.{view};

/// A write changes the slot of its key, and no other.
pub fn one_slot_changes()
    ensures written { (w : Write) (h : History) → slot (After w h) w.key ≡ after_write (slot h w.key) (position h + 1) w }
    ensures others { (w : Write) (h : History) (key : Key) → w.key ≢ key → slot (After w h) key ≡ slot h key }
{}

/// A slot tells the position of the last write of its key, what that write left, and the stamps of all its writes
/// in order.
pub fn slots_tell()
    ensures version { (h : History) (key : Key) → (slot h key).version ≡ last_position h key }
    ensures object { (h : History) (key : Key) → (slot h key).object ≡ last_object h key }
    ensures stamps { (h : History) (key : Key) → (slot h key).stamps ≡ all_stamps h key }
{}

/// Later writes change nothing of what was seen before them.
pub fn views_stay()
    ensures { (h : History) (later : List Write) (namespace : List ℕ) (a : ℕ) → a ≤ position h
        → view (after_all h later) namespace a ≡ view h namespace a }
{}

/// A state is in the order of its keys, and the count of the writes that carry a stamp can be read of the state
/// alone, as how often the stamp stands in all slots together.
pub fn state_counts_stamps()
    ensures order { (h : History) → IsInOrder (base_of h).slots → IsInOrder (state h) }
    ensures count { (h : History) (stamp : Stamp) → IsInOrder (base_of h).slots → carried stamp h ≡ times_in stamp (state h) }
{}
