// What a user wishes of the object at a key.
ghost use Rattle.std.specs.Prelude.{◌≡◌};
ghost use Rattle.std.specs.Option.{option_map};
ghost use Rattle.olm_base.specs.Outcome.{Gives};
ghost use Rattle.user_events.specs.Reasons.{is_free};
ghost use Rattle.user_events.specs.Wishes as spec;

use crate::applying::applied;
use crate::objects::{approved, deleted, readied};
use crate::refusals::Refusal;
use crate::releasing::released;
use crate::reviving::retried;
use cluster_objects::{CatalogStatus, Key, Object, Readiness, Status};
use olm_base::{Bytes, Memory, Name};
use std::alloc::Global;

/// What a user wishes of the object at a key.
#[derive(Debug, Drop)]
pub enum Wish {
    /// It is to have this body, which gives a new object this status.
    Apply { body: Bytes, status: Status },
    /// It is to be removed.
    Delete,
    /// The plan is to be approved.
    Approve,
    /// The deployment is to be this far.
    Ready { state: Readiness },
    /// There is to be a new resolution, with this budget of lemmas.
    Retry { budget: Option<u32> },
    /// The claims are to be without those of this namespace.
    Release { namespace: Name },
    /// There is to be a new catalog source, with this body and this priority.
    Catalog { body: Bytes, priority: i64 },
}

fn applied_whole(
    body: Bytes,
    status: Status,
    key: &Key,
    old: Option<&Object>,
    seen: u64,
) -> Result<Option<Object>, Refusal>
    ensures { Gives is_free (spec.wished (Wish.Apply body status) key.now (option_map (λ object. object.now) old.entry) seen) result }
{
    match applied(body, &status, key, old, seen) {
        Ok(object) => Ok(Some(object)),
        Err(Memory) => Err(Refusal::Memory),
    }
}

fn new_catalog(body: Bytes, priority: i64, seen: u64) -> Object
    ensures { result ≡ spec.new_catalog body priority seen }
{
    Object {
        body,
        status: Status::Catalog(CatalogStatus { priority }),
        owner: None,
        stamp: None,
        seen,
    }
}

/// What is to stand at the key: an object, or none.
pub(crate) fn wished(
    alloc: Global,
    wish: Wish,
    key: &Key,
    old: Option<&Object>,
    seen: u64,
) -> Result<Option<Object>, Refusal>
    ensures { Gives is_free (spec.wished wish key.now (option_map (λ object. object.now) old.entry) seen) result }
{
    match wish {
        Wish::Apply { body, status } => applied_whole(body, status, key, old, seen),
        Wish::Delete => deleted(alloc, key, old),
        Wish::Approve => approved(alloc, key, old, seen),
        Wish::Ready { state } => readied(alloc, state, key, old, seen),
        Wish::Retry { budget } => Ok(Some(retried(alloc, budget, key, old, seen)?)),
        Wish::Release { namespace } => released(alloc, &namespace, key, old, seen),
        Wish::Catalog { body, priority } => Ok(Some(new_catalog(body, priority, seen))),
    }
}
