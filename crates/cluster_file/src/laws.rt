// Laws of the definitions of a cluster's file.
ghost use Rattle.std.specs.Prelude.{◌≡◌, ◌≢◌, ◌≤◌, ◌<◌, ◌+◌, ◌⊎◌, ◌++◌, ◌∷◌, [], List, ℕ, length, take};
ghost use Rattle.payloads.specs.Laws.{AreBytes, IsForm};
ghost use Rattle.cluster_objects.specs.declared.objects.Write.{Write};
ghost use Rattle.cluster_history.specs.History.{History, After, IsHistory};
ghost use Rattle.cluster_file.specs.Files.{Stands, Damaged, header, history_in, record_form, stands};
ghost use Rattle.cluster_file.specs.Writing.{AreWrites, HoldsWrites, IsDamagedAfter, empty_file, history_after, piece, place_after, records};

/// What is read was written so, and what is written is read again: above 9 bytes a file stands for a history exactly
/// where it holds the writes of that history, in their order, and the place of the last gate is the one behind them.
/// Since `stands` is a function, a file stands for one history at most.
pub fn reading_is_writing()
    ensures written { (bytes : List ℕ) (ws : List Write) → AreWrites ws → HoldsWrites bytes ws → stands bytes ≡ Stands (history_after ws) (place_after ws) }
    ensures read { (bytes : List ℕ) (h : History) (place : ℕ) → AreBytes bytes → 9 < length bytes → stands bytes ≡ Stands h place
        → (ws : List Write) × AreWrites ws × HoldsWrites bytes ws × (h ≡ history_after ws) × (place ≡ place_after ws) }
    ensures short { (bytes : List ℕ) → length bytes ≤ 9 → stands bytes ≡ Stands (history_after []) (place_after []) }
    ensures records { IsForm record_form }
{}

/// Whatever the bytes of a file are, what they stand for is a history.
pub fn files_stand_for_histories()
    ensures { (bytes : List ℕ) → IsHistory (history_in bytes) }
{}

/// A file above 9 bytes is damaged at 0 exactly where it doesn't begin with the header, and behind these writes exactly
/// where the gate there is open and the length, the payload or the next gate passes the end, or the payload is no write
/// that expects its key's version.
pub fn damage_is_at_a_gate()
    ensures damaged { (bytes : List ℕ) (at : ℕ) → AreBytes bytes → stands bytes ≡ Damaged at
        → (9 < length bytes) × (((at ≡ 0) × (take 8 bytes ≢ header)) ⊎ ((ws : List Write) × AreWrites ws × IsDamagedAfter bytes ws × (at ≡ place_after ws))) }
    ensures header { (bytes : List ℕ) → 9 < length bytes → take 8 bytes ≢ header → stands bytes ≡ Damaged 0 }
    ensures gate { (bytes : List ℕ) (ws : List Write) → 9 < length bytes → AreWrites ws → IsDamagedAfter bytes ws → stands bytes ≡ Damaged (place_after ws) }
{}

/// Behind a closed gate anything may stand, so a record and its next gate are written there first. Then the one byte of
/// the gate decides: 1 adds exactly that write, and any other byte leaves the writes as they were.
pub fn gates_decide()
    ensures empty { HoldsWrites empty_file [] }
    ensures within { (bytes : List ℕ) (ws : List Write) → HoldsWrites bytes ws → place_after ws < length bytes }
    ensures behind { (bytes other : List ℕ) (ws : List Write) → HoldsWrites bytes ws → take (place_after ws + 1) other ≡ take (place_after ws + 1) bytes → HoldsWrites other ws }
    ensures opened { (ws : List Write) (w : Write) (next : ℕ) (rest : List ℕ) → next ≢ 1 → HoldsWrites (header ++ records ws ++ 1 ∷ (piece w next ++ rest)) (ws ++ w ∷ []) }
    ensures closed { (ws : List Write) (w : Write) (gate next : ℕ) (rest : List ℕ) → gate ≢ 1 → HoldsWrites (header ++ records ws ++ gate ∷ (piece w next ++ rest)) ws }
    ensures history { (ws : List Write) (w : Write) → history_after (ws ++ w ∷ []) ≡ After w (history_after ws) }
    ensures place { (ws : List Write) (w : Write) (next : ℕ) → place_after (ws ++ w ∷ []) ≡ place_after ws + length (piece w next) }
{}
