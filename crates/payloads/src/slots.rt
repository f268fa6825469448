// Slots and bases.
ghost use Rattle.payloads.specs.Slots.{slot_form, base_form};

use crate::stored::{ReadFault, Stored};
use cluster_history::{Base, Slot};
use cluster_objects::{Key, Object, Stamp};
use olm_base::{Many, Memory};
use std::alloc::Global;

impl Stored for Slot {
    ghost form = { slot_form };

    #[tactic(auto, unfolding(crate::specs::Slots::slot_form))]
    fn write_to(&self, out: &mut Vec<u8>) -> Result<(), Memory> {
        self.version.write_to(out)?;
        self.object.write_to(out)?;
        self.stamps.write_to(out)
    }

    #[tactic(auto, unfolding(crate::specs::Slots::slot_form))]
    fn read_from(alloc: Global, bytes: &[u8]) -> Result<(Slot, &[u8]), ReadFault> {
        let ((version, (object, stamps)), rest) = <(u64, (Option<Object>, Many<Stamp>))>::read_from(
            alloc, bytes,
        )?;
        Ok((
            Slot {
                version,
                object,
                stamps,
            },
            rest,
        ))
    }
}

impl Stored for Base {
    ghost form = { base_form };

    #[tactic(auto, unfolding(crate::specs::Slots::base_form))]
    fn write_to(&self, out: &mut Vec<u8>) -> Result<(), Memory> {
        self.length.write_to(out)?;
        self.slots.write_to(out)
    }

    #[tactic(auto, unfolding(crate::specs::Slots::base_form))]
    fn read_from(alloc: Global, bytes: &[u8]) -> Result<(Base, &[u8]), ReadFault> {
        let ((length, slots), rest) = <(u64, Many<(Key, Slot)>)>::read_from(alloc, bytes)?;
        Ok((Base { length, slots }, rest))
    }
}
