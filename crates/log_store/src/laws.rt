// Laws of the place of a file's last gate.
ghost use Rattle.std.specs.Prelude.{◌≡◌, ◌≤◌, ◌+◌, ◌^◌, ◌∷◌, ◌++◌, [], List, length, true, ◌↔◌};
ghost use Rattle.std.specs.List.{sum_by};
ghost use Rattle.cluster_objects.specs.declared.objects.Write.{Write};
ghost use Rattle.cluster_file.specs.Files.{header};
ghost use Rattle.cluster_file.specs.Writing.{history_after, piece, place_after, records};
ghost use Rattle.log_store.specs.Store.{fits, gate_place};

/// The place of the last gate is the one behind the writes of the history: 8, and the length of what each write adds.
/// The file that ends with that gate is one byte longer, and a write fits exactly where the file that ends with the
/// next gate has at most 2^40 bytes.
pub fn gates_add_up()
    ensures place { (ws : List Write) → gate_place (history_after ws) ≡ place_after ws }
    ensures sum { (ws : List Write) → gate_place (history_after ws) ≡ 8 + sum_by (λ w. length (piece w 0)) ws }
    ensures file { (ws : List Write) → length (header ++ records ws ++ 0 ∷ []) ≡ gate_place (history_after ws) + 1 }
    ensures fits { (ws : List Write) (w : Write) → (fits (history_after ws) w ≡ true) ↔ (length (header ++ records (ws ++ w ∷ []) ++ 0 ∷ []) ≤ 2 ^ 40) }
{}
