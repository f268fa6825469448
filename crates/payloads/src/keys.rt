// Keys, stamps and kinds.
ghost use Rattle.payloads.specs.Keys.{key_form, stamp_form, gvk_form};

use crate::stored::{ReadFault, Stored};
use cluster_objects::{Key, Stamp};
use olm_base::{Gvk, Memory, Name, Text};
use std::alloc::Global;

impl Stored for Key {
    ghost form = { key_form };

    #[tactic(auto, unfolding(crate::specs::Keys::key_form))]
    fn write_to(&self, out: &mut Vec<u8>) -> Result<(), Memory> {
        self.group.write_to(out)?;
        self.kind.write_to(out)?;
        self.namespace.write_to(out)?;
        self.name.write_to(out)
    }

    #[tactic(auto, unfolding(crate::specs::Keys::key_form))]
    fn read_from(alloc: Global, bytes: &[u8]) -> Result<(Key, &[u8]), ReadFault> {
        let ((group, (kind, (namespace, name))), rest) = <(Text, (Name, (Text, Name)))>::read_from(
            alloc, bytes,
        )?;
        Ok((
            Key {
                group,
                kind,
                namespace,
                name,
            },
            rest,
        ))
    }
}

impl Stored for Stamp {
    ghost form = { stamp_form };

    #[tactic(auto, unfolding(crate::specs::Keys::stamp_form))]
    fn write_to(&self, out: &mut Vec<u8>) -> Result<(), Memory> {
        self.namespace.write_to(out)?;
        self.plan.write_to(out)?;
        self.step.write_to(out)
    }

    #[tactic(auto, unfolding(crate::specs::Keys::stamp_form))]
    fn read_from(alloc: Global, bytes: &[u8]) -> Result<(Stamp, &[u8]), ReadFault> {
        let ((namespace, (plan, step)), rest) = <(Name, (u64, u64))>::read_from(alloc, bytes)?;
        Ok((
            Stamp {
                namespace,
                plan,
                step,
            },
            rest,
        ))
    }
}

impl Stored for Gvk {
    ghost form = { gvk_form };

    #[tactic(auto, unfolding(crate::specs::Keys::gvk_form))]
    fn write_to(&self, out: &mut Vec<u8>) -> Result<(), Memory> {
        self.group.write_to(out)?;
        self.version.write_to(out)?;
        self.kind.write_to(out)
    }

    #[tactic(auto, unfolding(crate::specs::Keys::gvk_form))]
    fn read_from(alloc: Global, bytes: &[u8]) -> Result<(Gvk, &[u8]), ReadFault> {
        let ((group, (version, kind)), rest) = <(Text, (Name, Name))>::read_from(alloc, bytes)?;
        Ok((
            Gvk {
                group,
                version,
                kind,
            },
            rest,
        ))
    }
}
