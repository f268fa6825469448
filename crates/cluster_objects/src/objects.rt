// Objects and the writes that put and remove them.
use crate::{
    CatalogStatus, ClaimsStatus, CsvStatus, GroupStatus, Key, LeaseStatus, PlanStatus, Readiness,
    ResolutionStatus, Stamp, StrategyStatus, SubscriptionStatus,
};
use olm_base::{Bytes, Name};
use std::alloc::AllocError;

/// What is known of an object beside its body. The order of the variants is that of their numbers in a stored
/// write.
#[derive(Debug, PartialEq, Eq, Drop)]
pub enum Status {
    Plain,
    Catalog(CatalogStatus),
    Subscription(SubscriptionStatus),
    Csv(CsvStatus),
    Deployment(Readiness),
    Plan(PlanStatus),
    Resolution(ResolutionStatus),
    Strategy(StrategyStatus),
    Group(GroupStatus),
    Claims(ClaimsStatus),
    Lease(LeaseStatus),
}

/// An object, as it stands at its key.
#[derive(Debug, PartialEq, Eq, Drop)]
pub struct Object {
    pub body: Bytes,
    pub status: Status,
    /// The CSV of the same namespace that it belongs to, by name.
    pub owner: Option<Name>,
    /// The plan's step whose write this is, if it is one's.
    pub stamp: Option<Stamp>,
    /// The length of the history that the writer saw.
    pub seen: u64,
}

/// Who writes.
#[derive(Clone, Copy, Debug, PartialEq, Eq)]
pub enum Writer {
    User,
    Resolver,
    Installer,
    Phases,
}

/// A write of one key. Without an object it is a removal.
#[derive(Debug, PartialEq, Eq, Drop)]
pub struct Write {
    pub by: Writer,
    /// The version that the key is to have; 0 for a key that was never written.
    pub expect: u64,
    pub key: Key,
    pub object: Option<Object>,
}

impl Clone for Status {
    ghost use Rattle.std.specs.Prelude.{◌≡◌};

    ghost is_clone = { λ status copy. copy ≡ status };

    fn clone(&self) -> Result<Status, AllocError> {
        Ok(match self {
            Status::Plain => Status::Plain,
            Status::Catalog(status) => Status::Catalog(*status),
            Status::Subscription(status) => Status::Subscription(status.clone()?),
            Status::Csv(status) => Status::Csv(status.clone()?),
            Status::Deployment(readiness) => Status::Deployment(*readiness),
            Status::Plan(status) => Status::Plan(status.clone()?),
            Status::Resolution(status) => Status::Resolution(status.clone()?),
            Status::Strategy(status) => Status::Strategy(*status),
            Status::Group(status) => Status::Group(status.clone()?),
            Status::Claims(status) => Status::Claims(status.clone()?),
            Status::Lease(status) => Status::Lease(*status),
        })
    }
}

impl Clone for Object {
    ghost use Rattle.std.specs.Prelude.{◌≡◌};

    ghost is_clone = { λ object copy. copy ≡ object };

    fn clone(&self) -> Result<Object, AllocError> {
        Ok(Object {
            body: self.body.clone()?,
            status: self.status.clone()?,
            owner: self.owner.clone()?,
            stamp: self.stamp.clone()?,
            seen: self.seen,
        })
    }
}

impl Clone for Write {
    ghost use Rattle.std.specs.Prelude.{◌≡◌};

    ghost is_clone = { λ write copy. copy ≡ write };

    fn clone(&self) -> Result<Write, AllocError> {
        Ok(Write {
            by: self.by,
            expect: self.expect,
            key: self.key.clone()?,
            object: self.object.clone()?,
        })
    }
}
