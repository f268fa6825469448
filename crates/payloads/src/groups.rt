// Strategies, groups, claims and leases.
ghost use Rattle.payloads.specs.Groups.{strategy_form, group_form, claim_form, claims_form, lease_form};

use crate::stored::{ReadFault, Stored};
use cluster_objects::{Claim, ClaimsStatus, GroupStatus, LeaseStatus, StrategyStatus};
use olm_base::{Gvk, Many, Memory, Name};
use std::alloc::Global;

impl Stored for StrategyStatus {
    ghost form = { strategy_form };

    #[tactic(auto, unfolding(crate::specs::Groups::strategy_form))]
    fn write_to(&self, out: &mut Vec<u8>) -> Result<(), Memory> {
        self.forward.write_to(out)
    }

    #[tactic(auto, unfolding(crate::specs::Groups::strategy_form))]
    fn read_from(alloc: Global, bytes: &[u8]) -> Result<(StrategyStatus, &[u8]), ReadFault> {
        let (forward, rest) = bool::read_from(alloc, bytes)?;
        Ok((StrategyStatus { forward }, rest))
    }
}

impl Stored for GroupStatus {
    ghost form = { group_form };

    #[tactic(auto, unfolding(crate::specs::Groups::group_form))]
    fn write_to(&self, out: &mut Vec<u8>) -> Result<(), Memory> {
        self.targets.write_to(out)
    }

    #[tactic(auto, unfolding(crate::specs::Groups::group_form))]
    fn read_from(alloc: Global, bytes: &[u8]) -> Result<(GroupStatus, &[u8]), ReadFault> {
        let (targets, rest) = <Option<Many<Name>>>::read_from(alloc, bytes)?;
        Ok((GroupStatus { targets }, rest))
    }
}

impl Stored for Claim {
    ghost form = { claim_form };

    #[tactic(auto, unfolding(crate::specs::Groups::claim_form))]
    fn write_to(&self, out: &mut Vec<u8>) -> Result<(), Memory> {
        self.kind.write_to(out)?;
        self.namespace.write_to(out)?;
        self.targets.write_to(out)
    }

    #[tactic(auto, unfolding(crate::specs::Groups::claim_form))]
    fn read_from(alloc: Global, bytes: &[u8]) -> Result<(Claim, &[u8]), ReadFault> {
        let ((kind, (namespace, targets)), rest) = <(Gvk, (Name, Option<Many<Name>>))>::read_from(
            alloc, bytes,
        )?;
        Ok((
            Claim {
                kind,
                namespace,
                targets,
            },
            rest,
        ))
    }
}

impl Stored for ClaimsStatus {
    ghost form = { claims_form };

    #[tactic(auto, unfolding(crate::specs::Groups::claims_form))]
    fn write_to(&self, out: &mut Vec<u8>) -> Result<(), Memory> {
        self.entries.write_to(out)
    }

    #[tactic(auto, unfolding(crate::specs::Groups::claims_form))]
    fn read_from(alloc: Global, bytes: &[u8]) -> Result<(ClaimsStatus, &[u8]), ReadFault> {
        let (entries, rest) = <Many<Claim>>::read_from(alloc, bytes)?;
        Ok((ClaimsStatus { entries }, rest))
    }
}

impl Stored for LeaseStatus {
    ghost form = { lease_form };

    #[tactic(auto, unfolding(crate::specs::Groups::lease_form))]
    fn write_to(&self, out: &mut Vec<u8>) -> Result<(), Memory> {
        self.term.write_to(out)?;
        self.holder.write_to(out)?;
        self.until.write_to(out)
    }

    #[tactic(auto, unfolding(crate::specs::Groups::lease_form))]
    fn read_from(alloc: Global, bytes: &[u8]) -> Result<(LeaseStatus, &[u8]), ReadFault> {
        let ((term, (holder, until)), rest) = <(u64, (u32, u64))>::read_from(alloc, bytes)?;
        Ok((
            LeaseStatus {
                term,
                holder,
                until,
            },
            rest,
        ))
    }
}
