// The statuses of catalogs, subscriptions, CSVs and deployments, and what a plan's step makes.
ghost use Rattle.payloads.specs.Statuses.{catalog_form, sub_spec_form, sub_state_form, subscription_form, crd_form, csv_phase_form, csv_form, readiness_form, made_form};

use crate::basic::read_plain_at;
use crate::stored::{ReadFault, Stored};
use cluster_objects::{
    CatalogStatus, Crd, CsvPhase, CsvStatus, Made, Readiness, SubSpec, SubState, SubscriptionStatus,
};
use olm_base::{Many, Memory, Name, Text};
use std::alloc::Global;

impl Stored for CatalogStatus {
    ghost form = { catalog_form };

    #[tactic(auto, unfolding(crate::specs::Statuses::catalog_form))]
    fn write_to(&self, out: &mut Vec<u8>) -> Result<(), Memory> {
        self.priority.write_to(out)
    }

    #[tactic(auto, unfolding(crate::specs::Statuses::catalog_form))]
    fn read_from(alloc: Global, bytes: &[u8]) -> Result<(CatalogStatus, &[u8]), ReadFault> {
        let (priority, rest) = i64::read_from(alloc, bytes)?;
        Ok((CatalogStatus { priority }, rest))
    }
}

impl Stored for SubSpec {
    ghost form = { sub_spec_form };

    #[tactic(auto, unfolding(crate::specs::Statuses::sub_spec_form))]
    fn write_to(&self, out: &mut Vec<u8>) -> Result<(), Memory> {
        self.package.write_to(out)?;
        self.channel.write_to(out)?;
        self.source.write_to(out)?;
        self.source_namespace.write_to(out)?;
        self.starting.write_to(out)?;
        self.manual.write_to(out)
    }

    #[tactic(auto, unfolding(crate::specs::Statuses::sub_spec_form))]
    fn read_from(alloc: Global, bytes: &[u8]) -> Result<(SubSpec, &[u8]), ReadFault> {
        let ((package, (channel, (source, (source_namespace, (starting, manual))))), rest) = <(
            Name,
            (Option<Name>, (Name, (Name, (Option<Name>, bool)))),
        )>::read_from(alloc, bytes)?;
        Ok((
            SubSpec {
                package,
                channel,
                source,
                source_namespace,
                starting,
                manual,
            },
            rest,
        ))
    }
}

impl Stored for SubState {
    ghost form = { sub_state_form };

    #[tactic(auto, unfolding(crate::specs::Statuses::sub_state_form))]
    fn write_to(&self, out: &mut Vec<u8>) -> Result<(), Memory> {
        out.push(*self as u8)?;
        Ok(())
    }

    #[tactic(auto, unfolding(crate::specs::Statuses::sub_state_form))]
    fn read_from(_alloc: Global, bytes: &[u8]) -> Result<(SubState, &[u8]), ReadFault> {
        read_plain_at(
            &[
                SubState::Nothing,
                SubState::UpgradeAvailable,
                SubState::UpgradePending,
                SubState::AtLatestKnown,
            ],
            bytes,
        )
    }
}

impl Stored for SubscriptionStatus {
    ghost form = { subscription_form };

    #[tactic(auto, unfolding(crate::specs::Statuses::subscription_form))]
    fn write_to(&self, out: &mut Vec<u8>) -> Result<(), Memory> {
        self.spec.write_to(out)?;
        self.state.write_to(out)
    }

    #[tactic(auto, unfolding(crate::specs::Statuses::subscription_form))]
    fn read_from(alloc: Global, bytes: &[u8]) -> Result<(SubscriptionStatus, &[u8]), ReadFault> {
        let ((spec, state), rest) = <(SubSpec, SubState)>::read_from(alloc, bytes)?;
        Ok((SubscriptionStatus { spec, state }, rest))
    }
}

impl Stored for Crd {
    ghost form = { crd_form };

    #[tactic(auto, unfolding(crate::specs::Statuses::crd_form))]
    fn write_to(&self, out: &mut Vec<u8>) -> Result<(), Memory> {
        self.name.write_to(out)?;
        self.version.write_to(out)?;
        self.kind.write_to(out)
    }

    #[tactic(auto, unfolding(crate::specs::Statuses::crd_form))]
    fn read_from(alloc: Global, bytes: &[u8]) -> Result<(Crd, &[u8]), ReadFault> {
        let ((name, (version, kind)), rest) = <(Name, (Name, Name))>::read_from(alloc, bytes)?;
        Ok((
            Crd {
                name,
                version,
                kind,
            },
            rest,
        ))
    }
}

impl Stored for CsvPhase {
    ghost form = { csv_phase_form };

    #[tactic(auto, unfolding(crate::specs::Statuses::csv_phase_form))]
    fn write_to(&self, out: &mut Vec<u8>) -> Result<(), Memory> {
        out.push(*self as u8)?;
        Ok(())
    }

    #[tactic(auto, unfolding(crate::specs::Statuses::csv_phase_form))]
    fn read_from(_alloc: Global, bytes: &[u8]) -> Result<(CsvPhase, &[u8]), ReadFault> {
        read_plain_at(
            &[
                CsvPhase::Nothing,
                CsvPhase::Pending,
                CsvPhase::InstallReady,
                CsvPhase::Installing,
                CsvPhase::Succeeded,
                CsvPhase::Failed,
                CsvPhase::Replacing,
                CsvPhase::Deleting,
            ],
            bytes,
        )
    }
}

impl Stored for CsvStatus {
    ghost form = { csv_form };

    #[tactic(auto, unfolding(crate::specs::Statuses::csv_form))]
    fn write_to(&self, out: &mut Vec<u8>) -> Result<(), Memory> {
        self.package.write_to(out)?;
        self.version.write_to(out)?;
        self.owned.write_to(out)?;
        self.needed.write_to(out)?;
        self.deployments.write_to(out)?;
        self.replaces.write_to(out)?;
        self.phase.write_to(out)
    }

    #[tactic(auto, unfolding(crate::specs::Statuses::csv_form))]
    fn read_from(alloc: Global, bytes: &[u8]) -> Result<(CsvStatus, &[u8]), ReadFault> {
        let ((package, (version, (owned, (needed, (deployments, (replaces, phase)))))), rest) = <(
            Option<Name>,
            (
                Text,
                (
                    Many<Crd>,
                    (Many<Crd>, (Many<Name>, (Option<Name>, CsvPhase))),
                ),
            ),
        )>::read_from(alloc, bytes)?;
        Ok((
            CsvStatus {
                package,
                version,
                owned,
                needed,
                deployments,
                replaces,
                phase,
            },
            rest,
        ))
    }
}

impl Stored for Readiness {
    ghost form = { readiness_form };

    #[tactic(auto, unfolding(crate::specs::Statuses::readiness_form))]
    fn write_to(&self, out: &mut Vec<u8>) -> Result<(), Memory> {
        out.push(*self as u8)?;
        Ok(())
    }

    #[tactic(auto, unfolding(crate::specs::Statuses::readiness_form))]
    fn read_from(_alloc: Global, bytes: &[u8]) -> Result<(Readiness, &[u8]), ReadFault> {
        read_plain_at(
            &[Readiness::Waiting, Readiness::Ready, Readiness::Failed],
            bytes,
        )
    }
}

impl Stored for Made {
    ghost form = { made_form };

    #[tactic(auto, unfolding(crate::specs::Statuses::made_form))]
    fn write_to(&self, out: &mut Vec<u8>) -> Result<(), Memory> {
        match self {
            Made::Plain => {
                out.push(0)?;
                Ok(())
            }
            Made::Subscription(status) => {
                out.push(1)?;
                status.write_to(out)
            }
            Made::Csv(status) => {
                out.push(2)?;
                status.write_to(out)
            }
            Made::Deployment(readiness) => {
                out.push(3)?;
                readiness.write_to(out)
            }
        }
    }

    #[tactic(auto, unfolding(crate::specs::Statuses::made_form))]
    fn read_from(alloc: Global, bytes: &[u8]) -> Result<(Made, &[u8]), ReadFault> {
        match bytes {
            [0, rest @ ..] => Ok((Made::Plain, rest)),
            [1, rest @ ..] => {
                let (status, rest) = SubscriptionStatus::read_from(alloc, rest)?;
                Ok((Made::Subscription(status), rest))
            }
            [2, rest @ ..] => {
                let (status, rest) = CsvStatus::read_from(alloc, rest)?;
                Ok((Made::Csv(status), rest))
            }
            [3, rest @ ..] => {
                let (readiness, rest) = Readiness::read_from(alloc, rest)?;
                Ok((Made::Deployment(readiness), rest))
            }
            _ => Err(ReadFault::NoSpelling),
        }
    }
}
