// Objects and the writes that put and remove them.
ghost use Rattle.payloads.specs.Objects.{status_form, object_form, writer_form, write_form};

use crate::basic::read_plain_at;
use crate::stored::{ReadFault, Stored};
use cluster_objects::{
    CatalogStatus, ClaimsStatus, CsvStatus, GroupStatus, Key, LeaseStatus, Object, PlanStatus,
    Readiness, ResolutionStatus, Stamp, Status, StrategyStatus, SubscriptionStatus, Write, Writer,
};
use olm_base::{Bytes, Memory, Name};
use std::alloc::Global;

impl Stored for Status {
    ghost form = { status_form };

    #[tactic(auto, unfolding(crate::specs::Objects::status_form))]
    fn write_to(&self, out: &mut Vec<u8>) -> Result<(), Memory> {
        match self {
            Status::Plain => {
                out.push(0)?;
                Ok(())
            }
            Status::Catalog(status) => {
                out.push(1)?;
                status.write_to(out)
            }
            Status::Subscription(status) => {
                out.push(2)?;
                status.write_to(out)
            }
            Status::Csv(status) => {
                out.push(3)?;
                status.write_to(out)
            }
            Status::Deployment(readiness) => {
                out.push(4)?;
                readiness.write_to(out)
            }
            Status::Plan(status) => {
                out.push(5)?;
                status.write_to(out)
            }
            Status::Resolution(status) => {
                out.push(6)?;
                status.write_to(out)
            }
            Status::Strategy(status) => {
                out.push(7)?;
                status.write_to(out)
            }
            Status::Group(status) => {
                out.push(8)?;
                status.write_to(out)
            }
            Status::Claims(status) => {
                out.push(9)?;
                status.write_to(out)
            }
            Status::Lease(status) => {
                out.push(10)?;
                status.write_to(out)
            }
        }
    }

    #[tactic(auto, unfolding(crate::specs::Objects::status_form))]
    fn read_from(alloc: Global, bytes: &[u8]) -> Result<(Status, &[u8]), ReadFault> {
        match bytes {
            [0, rest @ ..] => Ok((Status::Plain, rest)),
            [1, rest @ ..] => {
                let (status, rest) = CatalogStatus::read_from(alloc, rest)?;
                Ok((Status::Catalog(status), rest))
            }
            [2, rest @ ..] => {
                let (status, rest) = SubscriptionStatus::read_from(alloc, rest)?;
                Ok((Status::Subscription(status), rest))
            }
            [3, rest @ ..] => {
                let (status, rest) = CsvStatus::read_from(alloc, rest)?;
                Ok((Status::Csv(status), rest))
            }
            [4, rest @ ..] => {
                let (readiness, rest) = Readiness::read_from(alloc, rest)?;
                Ok((Status::Deployment(readiness), rest))
            }
            [5, rest @ ..] => {
                let (status, rest) = PlanStatus::read_from(alloc, rest)?;
                Ok((Status::Plan(status), rest))
            }
            [6, rest @ ..] => {
                let (status, rest) = ResolutionStatus::read_from(alloc, rest)?;
                Ok((Status::Resolution(status), rest))
            }
            [7, rest @ ..] => {
                let (status, rest) = StrategyStatus::read_from(alloc, rest)?;
                Ok((Status::Strategy(status), rest))
            }
            [8, rest @ ..] => {
                let (status, rest) = GroupStatus::read_from(alloc, rest)?;
                Ok((Status::Group(status), rest))
            }
            [9, rest @ ..] => {
                let (status, rest) = ClaimsStatus::read_from(alloc, rest)?;
                Ok((Status::Claims(status), rest))
            }
            [10, rest @ ..] => {
                let (status, rest) = LeaseStatus::read_from(alloc, rest)?;
                Ok((Status::Lease(status), rest))
            }
            _ => Err(ReadFault::NoSpelling),
        }
    }
}

impl Stored for Object {
    ghost form = { object_form };

    #[tactic(auto, unfolding(crate::specs::Objects::object_form))]
    fn write_to(&self, out: &mut Vec<u8>) -> Result<(), Memory> {
        self.body.write_to(out)?;
        self.status.write_to(out)?;
        self.owner.write_to(out)?;
        self.stamp.write_to(out)?;
        self.seen.write_to(out)
    }

    #[tactic(auto, unfolding(crate::specs::Objects::object_form))]
    fn read_from(alloc: Global, bytes: &[u8]) -> Result<(Object, &[u8]), ReadFault> {
        let ((body, (status, (owner, (stamp, seen)))), rest) = <(
            Bytes,
            (Status, (Option<Name>, (Option<Stamp>, u64))),
        )>::read_from(alloc, bytes)?;
        Ok((
            Object {
                body,
                status,
                owner,
                stamp,
                seen,
            },
            rest,
        ))
    }
}

impl Stored for Writer {
    ghost form = { writer_form };

    #[tactic(auto, unfolding(crate::specs::Objects::writer_form))]
    fn write_to(&self, out: &mut Vec<u8>) -> Result<(), Memory> {
        out.push(*self as u8)?;
        Ok(())
    }

    #[tactic(auto, unfolding(crate::specs::Objects::writer_form))]
    fn read_from(_alloc: Global, bytes: &[u8]) -> Result<(Writer, &[u8]), ReadFault> {
        read_plain_at(
            &[
                Writer::User,
                Writer::Resolver,
                Writer::Installer,
                Writer::Phases,
            ],
            bytes,
        )
    }
}

impl Stored for Write {
    ghost form = { write_form };

    #[tactic(auto, unfolding(crate::specs::Objects::write_form))]
    fn write_to(&self, out: &mut Vec<u8>) -> Result<(), Memory> {
        self.by.write_to(out)?;
        self.expect.write_to(out)?;
        self.key.write_to(out)?;
        self.object.write_to(out)
    }

    #[tactic(auto, unfolding(crate::specs::Objects::write_form))]
    fn read_from(alloc: Global, bytes: &[u8]) -> Result<(Write, &[u8]), ReadFault> {
        let ((by, (expect, (key, object))), rest) = <(
            Writer,
            (u64, (Key, Option<Object>)),
        )>::read_from(alloc, bytes)?;
        Ok((
            Write {
                by,
                expect,
                key,
                object,
            },
            rest,
        ))
    }
}
