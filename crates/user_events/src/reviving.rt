// Resolutions that are tried again.
ghost use Rattle.std.specs.Prelude.{◌≡◌, IfOk, true};
ghost use Rattle.std.specs.Option.{option_map, unwrap_or};
ghost use Rattle.user_events.specs.Wishes as spec;

use crate::kept::resolution_at;
use crate::objects::with_status;
use cluster_objects::{Basis, Key, Object, Outcome, ResolutionStatus, Status};
use olm_base::{Bytes, Many, Memory};
use std::alloc::Global;

/// The most lemmas of a decision where no event gives another number.
const DEFAULT_BUDGET: u32 = 10_000;

fn first_resolution(alloc: Global, budget: Option<u32>) -> ResolutionStatus
    ensures { result ≡ spec.first_resolution budget }
{
    ResolutionStatus {
        number: 0,
        budget: budget.unwrap_or(DEFAULT_BUDGET),
        again: true,
        basis: Basis {
            subscriptions: Many::new(alloc),
            tips: Many::new(alloc),
            catalogs: Many::new(alloc),
        },
        outcome: Outcome::Nothing,
        certificate: Bytes::from_vec(Vec::new(alloc)),
    }
}

fn new_resolution(alloc: Global, budget: Option<u32>, seen: u64) -> Object
    ensures { result ≡ spec.new_resolution budget seen }
{
    Object {
        body: Bytes::from_vec(Vec::new(alloc)),
        status: Status::Resolution(first_resolution(alloc, budget)),
        owner: None,
        stamp: None,
        seen,
    }
}

fn status_again(budget: Option<u32>, old: &ResolutionStatus) -> Result<Status, Memory>
    ensures { IfOk result (λ status. status ≡ Status.Resolution (record old.now { again = true; budget = unwrap_or budget old.now.budget })) }
{
    let mut status = old.clone()?;
    status.again = true;
    status.budget = budget.unwrap_or(old.budget);
    Ok(Status::Resolution(status))
}

fn tried_again(
    alloc: Global,
    budget: Option<u32>,
    object: &Object,
    seen: u64,
    old: Option<&ResolutionStatus>,
) -> Result<Object, Memory>
    ensures { IfOk result (λ new. new ≡ spec.tried_again budget object.now seen (option_map (λ found. found.now) old.entry)) }
{
    match old {
        Some(old) => with_status(object, status_again(budget, old)?, seen),
        None => Ok(new_resolution(alloc, budget, seen)),
    }
}

/// The resolution that stands there, or a first one, to be decided again.
pub(crate) fn retried(
    alloc: Global,
    budget: Option<u32>,
    key: &Key,
    old: Option<&Object>,
    seen: u64,
) -> Result<Object, Memory>
    ensures { IfOk result (λ new. new ≡ spec.retried budget key.now (option_map (λ object. object.now) old.entry) seen) }
{
    match old {
        Some(object) => tried_again(alloc, budget, object, seen, resolution_at(key, object)),
        None => Ok(new_resolution(alloc, budget, seen)),
    }
}
