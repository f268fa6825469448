// Slots that several owners share, seen as the slots, and the views that hold them.
ghost use Rattle.std.specs.Prelude.{◌≡◌, IfOk, option_map};
ghost use Rattle.std.specs.BTreeMap.{is_at};
ghost use Rattle.cluster_objects.specs.Keys.{key_cmp};
ghost use Rattle.object_store.specs.Seen.{slot_seen};

use cluster_history::Slot;
use cluster_objects::{Key, compare_keys};
use olm_base::Name;
use std::alloc::{AllocError, Global};
use std::marker::Model;
use std::rc::Rc;

/// A slot that the state and views share.
#[derive(Debug, Drop)]
pub struct Shared {
    slot: Rc<Slot>,
}

impl Model for Shared {
    ghost use Rattle.cluster_history.specs.declared.slots.Slot.{Slot};

    ghost Value = { Slot };

    ghost view = { λ s. s.slot.value };
}

impl Shared {
    pub fn new(alloc: Global, slot: Slot) -> Result<Shared, AllocError>
        ensures { IfOk result (λ s. s ≡ slot) }
    {
        Ok(Shared {
            slot: Rc::new(alloc, slot)?,
        })
    }

    pub fn slot(&self) -> &Slot
        ensures { result.now ≡ self.now }
    {
        &self.slot
    }
}

impl Clone for Shared {
    ghost use Rattle.std.specs.Prelude.{◌≡◌};

    ghost is_clone = { λ s copy. copy ≡ s };

    fn clone(&self) -> Result<Self, AllocError> {
        Ok(Shared {
            slot: self.slot.clone()?,
        })
    }
}

/// What a worker of a namespace sees of a history: the slots in key order, and the history's length.
#[derive(Debug, Drop)]
pub struct View {
    namespace: Name,
    length: u64,
    slots: Vec<(Key, Shared)>,
}

impl Model for View {
    ghost use Rattle.cluster_history.specs.Views as views;

    ghost Value = { views.View };

    ghost view = { λ v. record { namespace = v.namespace; length = v.length; slots = v.slots.items } };
}

impl View {
    pub fn new(namespace: Name, length: u64, slots: Vec<(Key, Shared)>) -> View
        ensures { result ≡ record { namespace = namespace; length = length; slots = slots.items } }
    {
        View {
            namespace,
            length,
            slots,
        }
    }

    pub fn namespace(&self) -> &Name
        ensures { result.now ≡ self.now.namespace }
    {
        &self.namespace
    }

    pub fn length(&self) -> u64
        ensures { result ≡ self.now.length }
    {
        self.length
    }

    /// In the order of their keys.
    pub fn slots(&self) -> &[(Key, Shared)]
        ensures { result.now ≡ self.now.slots }
    {
        &self.slots
    }

    /// What the view shows at this key, and None where it shows nothing there.
    pub fn slot(&self, key: &Key) -> Option<&Slot>
        ensures { option_map (λ slot. slot.now) result ≡ slot_seen self.now.slots key.now }
    {
        for entry in &self.slots {
            if stands_at(key, &entry.0) {
                return Some(entry.1.slot());
            }
        }
        None
    }
}

// Whether two keys are one.
fn stands_at(key: &Key, other: &Key) -> bool
    ensures { result ≡ is_at (key_cmp key.now) other.now }
{
    compare_keys(key, other).is_eq()
}
