// Resolutions, with their basis and their outcome.
ghost use Rattle.payloads.specs.Resolutions.{tip_form, seen_form, basis_form, taken_form, outcome_form, resolution_form};

use crate::stored::{ReadFault, Stored};
use cluster_objects::{Basis, Outcome, ResolutionStatus, Seen, SubSpec, Taken, Tip};
use olm_base::{Bytes, Gvk, Many, Memory, Name, Text};
use std::alloc::Global;

impl Stored for Tip {
    ghost form = { tip_form };

    #[tactic(auto, unfolding(crate::specs::Resolutions::tip_form))]
    fn write_to(&self, out: &mut Vec<u8>) -> Result<(), Memory> {
        self.name.write_to(out)?;
        self.package.write_to(out)?;
        self.version.write_to(out)?;
        self.kinds.write_to(out)?;
        self.succeeded.write_to(out)
    }

    #[tactic(auto, unfolding(crate::specs::Resolutions::tip_form))]
    fn read_from(alloc: Global, bytes: &[u8]) -> Result<(Tip, &[u8]), ReadFault> {
        let ((name, (package, (version, (kinds, succeeded)))), rest) = <(
            Name,
            (Option<Name>, (Text, (Many<Gvk>, bool))),
        )>::read_from(alloc, bytes)?;
        Ok((
            Tip {
                name,
                package,
                version,
                kinds,
                succeeded,
            },
            rest,
        ))
    }
}

impl Stored for Seen {
    ghost form = { seen_form };

    #[tactic(auto, unfolding(crate::specs::Resolutions::seen_form))]
    fn write_to(&self, out: &mut Vec<u8>) -> Result<(), Memory> {
        self.namespace.write_to(out)?;
        self.name.write_to(out)?;
        self.priority.write_to(out)?;
        self.version.write_to(out)
    }

    #[tactic(auto, unfolding(crate::specs::Resolutions::seen_form))]
    fn read_from(alloc: Global, bytes: &[u8]) -> Result<(Seen, &[u8]), ReadFault> {
        let ((namespace, (name, (priority, version))), rest) = <(
            Name,
            (Name, (i64, u64)),
        )>::read_from(alloc, bytes)?;
        Ok((
            Seen {
                namespace,
                name,
                priority,
                version,
            },
            rest,
        ))
    }
}

impl Stored for Basis {
    ghost form = { basis_form };

    #[tactic(auto, unfolding(crate::specs::Resolutions::basis_form))]
    fn write_to(&self, out: &mut Vec<u8>) -> Result<(), Memory> {
        self.subscriptions.write_to(out)?;
        self.tips.write_to(out)?;
        self.catalogs.write_to(out)
    }

    #[tactic(auto, unfolding(crate::specs::Resolutions::basis_form))]
    fn read_from(alloc: Global, bytes: &[u8]) -> Result<(Basis, &[u8]), ReadFault> {
        let ((subscriptions, (tips, catalogs)), rest) = <(
            Many<(Name, SubSpec)>,
            (Many<Tip>, Many<Seen>),
        )>::read_from(alloc, bytes)?;
        Ok((
            Basis {
                subscriptions,
                tips,
                catalogs,
            },
            rest,
        ))
    }
}

impl Stored for Taken {
    ghost form = { taken_form };

    #[tactic(auto, unfolding(crate::specs::Resolutions::taken_form))]
    fn write_to(&self, out: &mut Vec<u8>) -> Result<(), Memory> {
        self.catalog_namespace.write_to(out)?;
        self.catalog.write_to(out)?;
        self.package.write_to(out)?;
        self.channel.write_to(out)?;
        self.name.write_to(out)?;
        self.version.write_to(out)?;
        self.replaces.write_to(out)
    }

    #[tactic(auto, unfolding(crate::specs::Resolutions::taken_form))]
    fn read_from(alloc: Global, bytes: &[u8]) -> Result<(Taken, &[u8]), ReadFault> {
        let (
            (catalog_namespace, (catalog, (package, (channel, (name, (version, replaces)))))),
            rest,
        ) = <(Name, (Name, (Name, (Name, (Name, (Text, Option<Name>))))))>::read_from(
            alloc, bytes,
        )?;
        Ok((
            Taken {
                catalog_namespace,
                catalog,
                package,
                channel,
                name,
                version,
                replaces,
            },
            rest,
        ))
    }
}

impl Stored for Outcome {
    ghost form = { outcome_form };

    #[tactic(auto, unfolding(crate::specs::Resolutions::outcome_form))]
    fn write_to(&self, out: &mut Vec<u8>) -> Result<(), Memory> {
        match self {
            Outcome::Nothing => {
                out.push(0)?;
                Ok(())
            }
            Outcome::Chosen { walk, taken } => {
                out.push(1)?;
                walk.write_to(out)?;
                taken.write_to(out)
            }
            Outcome::Refused => {
                out.push(2)?;
                Ok(())
            }
            Outcome::Undecided { lemmas } => {
                out.push(3)?;
                lemmas.write_to(out)
            }
            Outcome::TooLarge { count } => {
                out.push(4)?;
                count.write_to(out)
            }
        }
    }

    #[tactic(auto, unfolding(crate::specs::Resolutions::outcome_form))]
    fn read_from(alloc: Global, bytes: &[u8]) -> Result<(Outcome, &[u8]), ReadFault> {
        match bytes {
            [0, rest @ ..] => Ok((Outcome::Nothing, rest)),
            [1, rest @ ..] => {
                let ((walk, taken), rest) = <(Many<u32>, Many<Taken>)>::read_from(alloc, rest)?;
                Ok((Outcome::Chosen { walk, taken }, rest))
            }
            [2, rest @ ..] => Ok((Outcome::Refused, rest)),
            [3, rest @ ..] => {
                let (lemmas, rest) = u32::read_from(alloc, rest)?;
                Ok((Outcome::Undecided { lemmas }, rest))
            }
            [4, rest @ ..] => {
                let (count, rest) = u64::read_from(alloc, rest)?;
                Ok((Outcome::TooLarge { count }, rest))
            }
            _ => Err(ReadFault::NoSpelling),
        }
    }
}

impl Stored for ResolutionStatus {
    ghost form = { resolution_form };

    #[tactic(auto, unfolding(crate::specs::Resolutions::resolution_form))]
    fn write_to(&self, out: &mut Vec<u8>) -> Result<(), Memory> {
        self.number.write_to(out)?;
        self.budget.write_to(out)?;
        self.again.write_to(out)?;
        self.basis.write_to(out)?;
        self.outcome.write_to(out)?;
        self.certificate.write_to(out)
    }

    #[tactic(auto, unfolding(crate::specs::Resolutions::resolution_form))]
    fn read_from(alloc: Global, bytes: &[u8]) -> Result<(ResolutionStatus, &[u8]), ReadFault> {
        let ((number, (budget, (again, (basis, (outcome, certificate))))), rest) = <(
            u64,
            (u32, (bool, (Basis, (Outcome, Bytes)))),
        )>::read_from(alloc, bytes)?;
        Ok((
            ResolutionStatus {
                number,
                budget,
                again,
                basis,
                outcome,
                certificate,
            },
            rest,
        ))
    }
}
