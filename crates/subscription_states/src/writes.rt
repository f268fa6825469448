// The writes of states.
ghost use Rattle.std.specs.Prelude.{◌≡◌, IfOk, IfSome, slice_get};
ghost use Rattle.std.specs.List.{filter_map};
ghost use Rattle.csv_phases.specs.Phases as spec;
ghost use Rattle.csv_phases.specs.States as states;
ghost use Rattle.subscription_states.specs.Offers.{IsOffered};
ghost use Rattle.subscription_states.specs.Slots.{write_at};

use crate::offered::Offered;
use crate::states::{same_state, state_of};
use crate::subscriptions::{Subscription, object_with, subscription_in};
use cluster_objects::{Key, SubState, Write, Writer};
use object_store::{Shared, View};
use olm_base::Memory;
use std::alloc::Global;

// The write of a subscription's state, if it isn't the one that it keeps.
fn write_of(
    view: &View,
    subscription: &Subscription,
    new: SubState,
) -> Result<Option<Write>, Memory>
    requires { new ≡ states.state_of view.now subscription.now.status.spec }
    ensures { IfOk result (λ write. write ≡ spec.state_write view.now subscription.now) }
{
    if same_state(subscription.status.state, new) {
        return Ok(None);
    }
    Ok(Some(Write {
        by: Writer::Phases,
        expect: subscription.version,
        key: subscription.key.clone()?,
        object: Some(object_with(view, subscription, new)?),
    }))
}

// The write of a subscription's state, if it isn't the one that it keeps.
fn state_write(
    alloc: Global,
    view: &View,
    known: &mut Option<Offered>,
    subscription: &Subscription,
) -> Result<Option<Write>, Memory>
    requires { IfSome known.old (IsOffered view.now) }
    ensures write { IfOk result (λ write. write ≡ spec.state_write view.now subscription.now) }
    ensures known { IfSome known.new (IsOffered view.now) }
{
    let new = state_of(alloc, view, known, &subscription.status.spec)?;
    write_of(view, subscription, new)
}

// The write of the state of the slot's subscription, if one stands there that has one.
fn write_in(
    alloc: Global,
    view: &View,
    known: &mut Option<Offered>,
    entry: &(Key, Shared),
) -> Result<Option<Write>, Memory>
    requires { IfSome known.old (IsOffered view.now) }
    ensures write { IfOk result (λ write. write ≡ write_at view.now entry.now) }
    ensures known { IfSome known.new (IsOffered view.now) }
{
    match subscription_in(view, entry) {
        Some(subscription) => state_write(alloc, view, known, &subscription),
        None => Ok(None),
    }
}

// The first write of these slots.
#[tactic(auto, using(crate::proofs::Firsts::passed, crate::proofs::Firsts::found))]
fn first_in(alloc: Global, view: &View, slots: &[(Key, Shared)]) -> Result<Option<Write>, Memory>
    ensures { IfOk result (λ write. write ≡ slice_get (filter_map (write_at view.now) slots.now) 0) }
{
    let mut known = None;
    'slots: for entry in slots {
        if let Some(write) = write_in(alloc, view, &mut known, entry)? {
            return Ok(Some(write));
        }
    }
    Ok(None)
}

/// The write of the first subscription whose state isn't the one that it keeps, and None exactly where there is none.
#[tactic(auto, using(crate::proofs::Slots::first_is))]
pub fn first_state(alloc: Global, view: &View) -> Result<Option<Write>, Memory>
    ensures { IfOk result (λ write. write ≡ slice_get (spec.state_writes view.now) 0) }
{
    first_in(alloc, view, view.slots())
}
