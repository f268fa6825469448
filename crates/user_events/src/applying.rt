// A body that is applied over what stands at its key.
ghost use Rattle.std.specs.Prelude.{◌≡◌, IfOk};
ghost use Rattle.std.specs.Option.{option_map};
ghost use Rattle.user_events.specs.Wishes as spec;

use crate::kept::{csv_at, deployment_at, subscription_at};
use cluster_objects::{CsvStatus, Key, Object, Status, SubscriptionStatus};
use olm_base::{Bytes, Memory, Name};

/// The owner of what stands there.
pub(crate) fn kept_owner(old: Option<&Object>) -> Result<Option<Name>, Memory>
    ensures { IfOk result (λ owner. owner ≡ spec.kept_owner (option_map (λ object. object.now) old.entry)) }
{
    match old {
        Some(object) => Ok(object.owner.clone()?),
        None => Ok(None),
    }
}

fn kept_csv(old: Option<&CsvStatus>, new: &CsvStatus) -> Result<CsvStatus, Memory>
    ensures { IfOk result (λ csv. csv ≡ spec.kept_csv (option_map (λ csv. csv.now) old.entry) new.now) }
{
    match old {
        Some(old) => Ok(CsvStatus {
            package: old.package.clone()?,
            version: old.version.clone()?,
            owned: new.owned.clone()?,
            needed: new.needed.clone()?,
            deployments: new.deployments.clone()?,
            replaces: old.replaces.clone()?,
            phase: old.phase,
        }),
        None => Ok(new.clone()?),
    }
}

fn kept_subscription(
    old: Option<&SubscriptionStatus>,
    new: &SubscriptionStatus,
) -> Result<SubscriptionStatus, Memory>
    ensures { IfOk result (λ found. found ≡ spec.kept_subscription (option_map (λ found. found.now) old.entry) new.now) }
{
    match old {
        Some(old) => Ok(SubscriptionStatus {
            spec: new.spec.clone()?,
            state: old.state,
        }),
        None => Ok(new.clone()?),
    }
}

fn kept_status(key: &Key, old: Option<&Object>, new: &Status) -> Result<Status, Memory>
    ensures { IfOk result (λ status. status ≡ spec.kept_status key.now (option_map (λ object. object.now) old.entry) new.now) }
{
    Ok(match new {
        Status::Plain => Status::Plain,
        Status::Catalog(found) => Status::Catalog(*found),
        Status::Subscription(found) => {
            Status::Subscription(kept_subscription(subscription_at(key, old), found)?)
        }
        Status::Csv(csv) => Status::Csv(kept_csv(csv_at(key, old), csv)?),
        Status::Deployment(state) => Status::Deployment(deployment_at(key, old).unwrap_or(*state)),
        Status::Plan(plan) => Status::Plan(plan.clone()?),
        Status::Resolution(found) => Status::Resolution(found.clone()?),
        Status::Strategy(found) => Status::Strategy(*found),
        Status::Group(found) => Status::Group(found.clone()?),
        Status::Claims(found) => Status::Claims(found.clone()?),
        Status::Lease(found) => Status::Lease(*found),
    })
}

/// The object of this body over what stands at its key.
pub(crate) fn applied(
    body: Bytes,
    status: &Status,
    key: &Key,
    old: Option<&Object>,
    seen: u64,
) -> Result<Object, Memory>
    ensures { IfOk result (λ object. object ≡ spec.applied body status.now key.now (option_map (λ object. object.now) old.entry) seen) }
{
    Ok(Object {
        body,
        status: kept_status(key, old, status)?,
        owner: kept_owner(old)?,
        stamp: None,
        seen,
    })
}
