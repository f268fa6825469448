// What a resolution of a namespace rests on.
ghost use Rattle.std.specs.Prelude.{◌≡◌, IfOk, map};
ghost use Rattle.view_basis.specs.Basis as spec;
ghost use Rattle.view_basis.specs.Visible.{seen_catalogs};

use crate::tips::tips_of;
use crate::visible::sources_of;
use cluster_objects::{Basis, Key, Seen, Status, SubSpec, is_subscription_key};
use object_store::{Shared, View};
use olm_base::{Many, Memory, Name};
use std::alloc::Global;

// The subscription of the slot, if one of this namespace stands there.
fn subscription_in(
    namespace: &Name,
    entry: &(Key, Shared),
) -> Result<Option<(Name, SubSpec)>, Memory>
    ensures { IfOk result (λ subscription. subscription ≡ spec.subscription_in namespace.now entry.now) }
{
    if entry.0.namespace.as_slice() != namespace.as_bytes() || !is_subscription_key(&entry.0) {
        return Ok(None);
    }
    match &entry.1.slot().object {
        None => Ok(None),
        Some(object) => match &object.status {
            Status::Subscription(status) => {
                Ok(Some((entry.0.name.clone()?, status.spec.clone()?)))
            }
            _ => Ok(None),
        },
    }
}

/// The subscriptions of the view's namespace, each with its name and what it asks for, in the order of the slots.
pub fn subscriptions_of(alloc: Global, view: &View) -> Result<Many<(Name, SubSpec)>, Memory>
    ensures { IfOk result (λ subscriptions. subscriptions ≡ spec.subscriptions view.now) }
{
    let mut subscriptions = Many::new(alloc);
    'slots: for entry in view.slots() {
        if let Some(subscription) = subscription_in(view.namespace(), entry)? {
            subscriptions.push(subscription)?;
        }
    }
    Ok(subscriptions)
}

fn seen_of(alloc: Global, view: &View) -> Result<Many<Seen>, Memory>
    ensures { IfOk result (λ seen. seen ≡ seen_catalogs view.now) }
{
    let mut seen = Many::new(alloc);
    'sources: for source in sources_of(alloc, view)? {
        seen.push(source.seen)?;
    }
    Ok(seen)
}

/// What a resolution of the view's namespace rests on.
pub fn basis_of(alloc: Global, view: &View) -> Result<Basis, Memory>
    ensures { IfOk result (λ basis. basis ≡ spec.basis view.now) }
{
    Ok(Basis {
        subscriptions: subscriptions_of(alloc, view)?,
        tips: tips_of(alloc, view)?,
        catalogs: seen_of(alloc, view)?,
    })
}
