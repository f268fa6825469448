// One look at a store, and then one write.
ghost use Rattle.std.specs.Prelude.{◌≡◌, true, false, not, codes, IfOk, Ok};
ghost use Rattle.std.specs.Option.{option_map, unwrap_or};
ghost use Rattle.cluster_objects.specs.Keys.{same_text};
ghost use Rattle.cluster_history.specs.History.{never_written, position, slot, slot_in};
ghost use Rattle.cluster_history.specs.Views.{is_visible};
ghost use Rattle.object_store.specs.Puts.{Agrees, IsSound};
ghost use Rattle.olm_base.specs.Outcome.{Gives};
ghost use Rattle.olm_base.specs.Names.{is_name};
ghost use Rattle.olm_io.specs.Outside.{HasCause};
ghost use Rattle.user_events.specs.Answers.{Answers, store_failed, folder_failed, outage_failed};
ghost use Rattle.user_events.specs.Asked as spec;
ghost use Rattle.cluster_objects.specs.Places.{is_place};
ghost use Rattle.user_events.specs.Reasons.{is_free};

use crate::answers::UserAnswer;
use crate::refusals::Refusal;
use crate::wishes::{Wish, wished};
use cluster_objects::{Key, Object, Write, Writer};
use object_store::{Cluster, ClusterFault, PutAnswer, Slot, View};
use olm_base::{Memory, Name, NameFault, Text};
use olm_io::Outage;
use std::alloc::Global;

// A name whose bytes are one.
pub(crate) fn given_name(alloc: Global, text: &[u8]) -> Result<Name, Memory>
    requires { is_name text.now ≡ true }
    ensures { IfOk result (λ name. name ≡ text.now) }
{
    match Name::new(alloc, text) {
        Ok(name) => Ok(name),
        Err(NameFault::Memory) => Err(Memory),
        Err(NameFault::Bad) => unreachable!(),
    }
}

fn is_empty(text: &Text) -> bool
    ensures { result ≡ same_text text.now (codes "") }
{
    text.as_slice() == b"".as_slice()
}

// A namespace that sees the key.
fn place_of(alloc: Global, key: &Key) -> Result<Name, Memory>
    requires { is_place key.now.namespace ≡ true }
    ensures { IfOk result (λ name. is_visible name key.now ≡ true) }
{
    if is_empty(&key.namespace) {
        given_name(alloc, b"default")
    } else {
        given_name(alloc, key.namespace.as_slice())
    }
}

// What the store holds at a key.
fn look<C: Cluster>(alloc: Global, key: &Key, cluster: &mut C) -> Result<View, Outage>
    requires ready { C.ready cluster.old ≡ true }
    requires place { is_place key.now.namespace ≡ true }
    ensures slot { IfOk result (λ view. slot_in view.slots key.now ≡ slot (C.history cluster.old) key.now) }
    ensures length { IfOk result (λ view. view.length ≡ position (C.history cluster.old)) }
    ensures history { C.history cluster.new ≡ C.history cluster.old }
    ensures limit { C.limit cluster.new ≡ C.limit cluster.old }
    ensures tells { C.tells cluster.new ≡ C.tells cluster.old }
    ensures sound { IsSound (C.tells cluster.old) (C.damage cluster.old) → IsSound (C.tells cluster.new) (C.damage cluster.new) }
    ensures cause { HasCause (C.faults cluster.old) (C.faults cluster.new) (outage_failed result ≡ true) }
    ensures ready { C.ready cluster.new ≡ not (outage_failed result) }
{
    let namespace = match place_of(alloc, key) {
        Ok(namespace) => namespace,
        Err(Memory) => return Err(Outage::Memory),
    };
    match cluster.snapshot(alloc, &namespace) {
        Ok(view) => Ok(view),
        Err(ClusterFault::Failed) => Err(Outage::Failed),
        Err(ClusterFault::Memory) => Err(Outage::Memory),
        Err(ClusterFault::Damaged { at: _ }) => unreachable!(),
    }
}

fn object_of(there: Option<&Slot>) -> Option<&Object>
    ensures { option_map (λ object. object.now) result ≡ (unwrap_or (option_map (λ there. there.now) there.entry) never_written).object }
{
    match there {
        Some(there) => there.object.as_ref(),
        None => None,
    }
}

fn version_of(there: Option<&Slot>) -> u64
    ensures { result ≡ (unwrap_or (option_map (λ there. there.now) there.entry) never_written).version }
{
    match there {
        Some(there) => there.version,
        None => 0,
    }
}

// The write that is asked for.
fn asked(alloc: Global, key: Key, wish: Wish, view: &View) -> Result<Write, Refusal>
    ensures { Gives is_free (spec.asked_of (slot_in view.now.slots key) view.now.length key wish) result }
{
    let there = view.slot(&key);
    let object = wished(alloc, wish, &key, object_of(there), view.length())?;
    Ok(Write {
        by: Writer::User,
        expect: version_of(there),
        key,
        object,
    })
}

fn discard_write(_write: Write) {}

fn discard_wish(_wish: Wish) {}

// Makes a write that expects the present version of its key.
fn put<C: Cluster>(alloc: Global, write: Write, cluster: &mut C) -> UserAnswer
    requires ready { C.ready cluster.old ≡ true }
    requires agrees { Agrees (C.history cluster.old) write }
    ensures answer { Answers C.fits (C.limit cluster.old) (C.history cluster.old) (λ asked. Ok write ≡ asked) (C.history cluster.new) result }
    ensures limit { C.limit cluster.new ≡ C.limit cluster.old }
    ensures tells { C.tells cluster.new ≡ C.tells cluster.old }
    ensures sound { IsSound (C.tells cluster.old) (C.damage cluster.old) → IsSound (C.tells cluster.new) (C.damage cluster.new) }
    ensures cause { HasCause (C.faults cluster.old) (C.faults cluster.new) (store_failed result ≡ true) }
    ensures ready { C.ready cluster.new ≡ not (store_failed result) }
    ensures folder { folder_failed result ≡ false }
{
    let Ok(key) = write.key.clone() else {
        discard_write(write);
        return UserAnswer::Memory;
    };
    match cluster.put(alloc, write) {
        PutAnswer::Done { version } => UserAnswer::Done { key, version },
        PutAnswer::Full => UserAnswer::Full,
        PutAnswer::Failed => UserAnswer::StoreFailed,
        PutAnswer::Memory => UserAnswer::Memory,
        PutAnswer::Conflict { found: _ } => unreachable!(),
    }
}

// Makes the write that is asked for by what a view shows.
fn put_asked<C: Cluster>(
    alloc: Global,
    key: Key,
    wish: Wish,
    view: &View,
    cluster: &mut C,
) -> UserAnswer
    requires ready { C.ready cluster.old ≡ true }
    requires slot { slot_in view.now.slots key ≡ slot (C.history cluster.old) key }
    requires length { view.now.length ≡ position (C.history cluster.old) }
    ensures answer { Answers C.fits (C.limit cluster.old) (C.history cluster.old) (λ asked. spec.asked_at (C.history cluster.old) key wish ≡ asked) (C.history cluster.new) result }
    ensures limit { C.limit cluster.new ≡ C.limit cluster.old }
    ensures tells { C.tells cluster.new ≡ C.tells cluster.old }
    ensures sound { IsSound (C.tells cluster.old) (C.damage cluster.old) → IsSound (C.tells cluster.new) (C.damage cluster.new) }
    ensures cause { HasCause (C.faults cluster.old) (C.faults cluster.new) (store_failed result ≡ true) }
    ensures ready { C.ready cluster.new ≡ not (store_failed result) }
    ensures folder { folder_failed result ≡ false }
{
    match asked(alloc, key, wish, view) {
        Ok(write) => put(alloc, write, cluster),
        Err(Refusal::Reason { words }) => UserAnswer::Refused { reason: words },
        Err(Refusal::Memory) => UserAnswer::Memory,
    }
}

/// Carries out what a user wishes of the object at a key.
pub(crate) fn carry_out<C: Cluster>(
    alloc: Global,
    key: Key,
    wish: Wish,
    cluster: &mut C,
) -> UserAnswer
    requires ready { C.ready cluster.old ≡ true }
    requires place { is_place key.namespace ≡ true }
    ensures answer { Answers C.fits (C.limit cluster.old) (C.history cluster.old) (λ asked. spec.asked_at (C.history cluster.old) key wish ≡ asked) (C.history cluster.new) result }
    ensures limit { C.limit cluster.new ≡ C.limit cluster.old }
    ensures tells { C.tells cluster.new ≡ C.tells cluster.old }
    ensures sound { IsSound (C.tells cluster.old) (C.damage cluster.old) → IsSound (C.tells cluster.new) (C.damage cluster.new) }
    ensures cause { HasCause (C.faults cluster.old) (C.faults cluster.new) (store_failed result ≡ true) }
    ensures ready { C.ready cluster.new ≡ not (store_failed result) }
    ensures folder { folder_failed result ≡ false }
{
    match look(alloc, &key, cluster) {
        Ok(view) => put_asked(alloc, key, wish, &view, cluster),
        Err(Outage::Failed) => {
            discard_wish(wish);
            UserAnswer::StoreFailed
        }
        Err(Outage::Memory) => {
            discard_wish(wish);
            UserAnswer::Memory
        }
    }
}
