// The subscriptions of a namespace, as they stand.
ghost use Rattle.std.specs.Prelude.{◌≡◌, IfOk};
ghost use Rattle.csv_phases.specs.Phases.{with_state};
ghost use Rattle.csv_phases.specs.States as spec;

use cluster_objects::{Key, Object, Status, SubState, SubscriptionStatus, is_subscription_key};
use object_store::{Shared, View};
use olm_base::Memory;
use std::marker::Model;

/// A subscription of the view's namespace: what stands at its key in which version, and its status.
#[derive(Drop)]
pub(crate) struct Subscription<'a> {
    pub(crate) key: &'a Key,
    pub(crate) version: u64,
    pub(crate) object: &'a Object,
    pub(crate) status: &'a SubscriptionStatus,
}

impl<'a> Model for Subscription<'a> {
    ghost use Rattle.csv_phases.specs.States as spec;

    ghost Value = { spec.Subscription };

    ghost view = { λ s. record { key = s.key.now; version = s.version; object = s.object.now; status = s.status.now } };
}

// The subscription that the object of a slot is, if its key is of that kind.
fn subscription_of<'a>(entry: &'a (Key, Shared), object: &'a Object) -> Option<Subscription<'a>>
    ensures { result ≡ spec.subscription_of entry.now object.now }
{
    if !is_subscription_key(&entry.0) {
        return None;
    }
    match &object.status {
        Status::Subscription(status) => Some(Subscription {
            key: &entry.0,
            version: entry.1.slot().version,
            object,
            status,
        }),
        _ => None,
    }
}

/// The subscription of the slot, if one of the view's namespace stands there.
pub(crate) fn subscription_in<'a>(view: &View, entry: &'a (Key, Shared)) -> Option<Subscription<'a>>
    ensures { result ≡ spec.subscription_entry view.now entry.now }
{
    if entry.0.namespace.as_slice() != view.namespace().as_bytes() {
        return None;
    }
    match &entry.1.slot().object {
        Some(object) => subscription_of(entry, object),
        None => None,
    }
}

fn status_with(status: &SubscriptionStatus, new: SubState) -> Result<SubscriptionStatus, Memory>
    ensures { IfOk result (λ made. made ≡ record status.now { state = new }) }
{
    Ok(SubscriptionStatus {
        spec: status.spec.clone()?,
        state: new,
    })
}

/// What stands there, in another state.
pub(crate) fn object_with(
    view: &View,
    subscription: &Subscription,
    new: SubState,
) -> Result<Object, Memory>
    ensures { IfOk result (λ object. object ≡ with_state view.now subscription.now new) }
{
    let there = subscription.object;
    Ok(Object {
        body: there.body.clone()?,
        status: Status::Subscription(status_with(subscription.status, new)?),
        owner: there.owner.clone()?,
        stamp: None,
        seen: view.length(),
    })
}
