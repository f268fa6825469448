// Laws of the spellings.
ghost use Rattle.std.specs.Prelude.{◌≡◌, ◌≢◌, ◌++◌, ℕ, [], List, Some, None};
ghost use Rattle.payloads.specs.Form.{Spells, whole, ◌⊗◌, number_form, short_form, signed_form, truth_form, bytes_form, text_form, name_form};
ghost use Rattle.payloads.specs.Extents.{EndsByBytes};
ghost use Rattle.payloads.specs.Laws.{AreBytes, IsForm};
ghost use Rattle.payloads.specs.Keys.{key_form, stamp_form, gvk_form};
ghost use Rattle.payloads.specs.Statuses.{sub_spec_form, crd_form};
ghost use Rattle.payloads.specs.Plans.{step_form};
ghost use Rattle.payloads.specs.Resolutions.{tip_form, seen_form, taken_form};
ghost use Rattle.payloads.specs.Groups.{claim_form};
ghost use Rattle.payloads.specs.Objects.{status_form, object_form, write_form};
ghost use Rattle.payloads.specs.Slots.{slot_form, base_form};
ghost use Rattle.cluster_objects.specs.declared.objects.Write.{Write};
ghost use Rattle.cluster_history.specs.declared.slots.Base.{Base};

/// Numbers, truth values and texts have one spelling each, and so have all that writes and bases hold: what is spelled
/// is read again, whatever follows it, and what is read is spelled so.
pub fn parts_have_one_spelling()
    ensures numbers { IsForm number_form }
    ensures short_numbers { IsForm short_form }
    ensures signed_numbers { IsForm signed_form }
    ensures truths { IsForm truth_form }
    ensures bytes { IsForm bytes_form }
    ensures texts { IsForm text_form }
    ensures names { IsForm name_form }
    ensures keys { IsForm key_form }
    ensures statuses { IsForm status_form }
    ensures objects { IsForm object_form }
    ensures slots { IsForm slot_form }
    ensures writes { IsForm write_form }
    ensures bases { IsForm base_form }
{}

/// A write's payload is read again as that write, no other bytes are read as it, and bytes behind a payload make it
/// none. So is a base's.
pub fn payloads_have_one_spelling()
    ensures write_again { (write : Write) (bytes : List ℕ) → Spells write_form write bytes → whole write_form bytes ≡ Some write }
    ensures write_only { (write : Write) (bytes : List ℕ) → AreBytes bytes → whole write_form bytes ≡ Some write → Spells write_form write bytes }
    ensures write_alone { (write : Write) (bytes more : List ℕ) → Spells write_form write bytes → more ≢ [] → whole write_form (bytes ++ more) ≡ None }
    ensures base_again { (base : Base) (bytes : List ℕ) → Spells base_form base bytes → whole base_form bytes ≡ Some base }
    ensures base_only { (base : Base) (bytes : List ℕ) → AreBytes bytes → whole base_form bytes ≡ Some base → Spells base_form base bytes }
    ensures base_alone { (base : Base) (bytes more : List ℕ) → Spells base_form base bytes → more ≢ [] → whole base_form (bytes ++ more) ≡ None }
{}

/// Each list that a write or a base holds takes eight bytes for its count and one byte at least for each item, so no
/// list that is read has more items than there are bytes, whatever its count says.
pub fn lists_end_by_the_bytes()
    ensures owned_and_needed { EndsByBytes crd_form }
    ensures deployments_and_targets { EndsByBytes name_form }
    ensures steps { EndsByBytes step_form }
    ensures subscriptions { EndsByBytes (name_form ⊗ sub_spec_form) }
    ensures tips { EndsByBytes tip_form }
    ensures kinds { EndsByBytes gvk_form }
    ensures catalogs { EndsByBytes seen_form }
    ensures walk { EndsByBytes short_form }
    ensures taken { EndsByBytes taken_form }
    ensures stamps { EndsByBytes stamp_form }
    ensures claims { EndsByBytes claim_form }
    ensures slots { EndsByBytes (key_form ⊗ slot_form) }
{}
