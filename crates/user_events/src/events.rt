// The events of a user that need no folder.
ghost use Rattle.std.specs.Prelude.{◌≡◌, true, false, not, IfOk};
ghost use Rattle.std.specs.Result.{IsOk};
ghost use Rattle.olm_base.specs.Names.{is_name};
ghost use Rattle.olm_base.specs.Outcome.{Gives};
ghost use Rattle.olm_io.specs.Outside.{HasCause};
ghost use Rattle.object_bodies.specs.Bodies.{user_object};
ghost use Rattle.object_store.specs.Puts.{IsSound};
ghost use Rattle.user_events.specs.Answers.{Answers, store_failed, folder_failed};
ghost use Rattle.user_events.specs.Asked as spec;
ghost use Rattle.cluster_objects.specs.Places as places;
ghost use Rattle.user_events.specs.Reasons.{is_free};

use crate::answers::UserAnswer;
use crate::carrying::{carry_out, given_name};
use crate::refusals::{Refusal, as_text, body_refusal};
use crate::wishes::Wish;
use cluster_objects::{Key, Readiness, Status};
use object_bodies::read_object;
use object_store::Cluster;
use olm_base::{Bytes, Memory, Name, Text};
use std::alloc::Global;

fn discard_status(_status: Status) {}

// The key of a body's object, and what is wished of it.
fn apply_wish(alloc: Global, body: &Bytes) -> Result<(Key, Wish), Refusal>
    ensures { Gives is_free (spec.apply_wish body.now (user_object body.now)) result }
{
    match read_object(alloc, body.as_slice()) {
        Ok((key, status)) => match body.clone() {
            Ok(body) => Ok((key, Wish::Apply { body, status })),
            Err(_) => {
                discard_status(status);
                Err(Refusal::Memory)
            }
        },
        Err(fault) => Err(body_refusal(alloc, &fault)),
    }
}

// A key in a namespace.
#[tactic(auto, using(crate::proofs::Placing::named_place))]
fn key_in(
    alloc: Global,
    group: &str,
    kind: &[u8],
    namespace: &Name,
    name: &Name,
) -> Result<Key, Memory>
    requires { is_name kind.now ≡ true }
    ensures key { IfOk result (λ key. key ≡ record { group = group.now; kind = kind.now; namespace = namespace.now; name = name.now }) }
    ensures place { IfOk result (λ key. places.is_place namespace.now ≡ true) }
{
    Ok(Key {
        group: Text::from_str(alloc, group)?,
        kind: given_name(alloc, kind)?,
        namespace: Text::from_str(alloc, as_text(namespace))?,
        name: name.clone()?,
    })
}

/// Puts the object of this body over what stands at its key.
///
/// It is refused as its body is, before the store is asked.
pub fn apply<C: Cluster>(alloc: Global, body: &Bytes, cluster: &mut C) -> UserAnswer
    requires ready { C.ready cluster.old ≡ true }
    ensures answer { Answers C.fits (C.limit cluster.old) (C.history cluster.old) (λ asked. spec.apply (C.history cluster.old) body.now ≡ asked) (C.history cluster.new) result }
    ensures body { store_failed result ≡ true → IsOk (user_object body.now) }
    ensures limit { C.limit cluster.new ≡ C.limit cluster.old }
    ensures tells { C.tells cluster.new ≡ C.tells cluster.old }
    ensures sound { IsSound (C.tells cluster.old) (C.damage cluster.old) → IsSound (C.tells cluster.new) (C.damage cluster.new) }
    ensures cause { HasCause (C.faults cluster.old) (C.faults cluster.new) (store_failed result ≡ true) }
    ensures ready { C.ready cluster.new ≡ not (store_failed result) }
    ensures folder { folder_failed result ≡ false }
{
    match apply_wish(alloc, body) {
        Ok((key, wish)) => carry_out(alloc, key, wish, cluster),
        Err(Refusal::Reason { words }) => UserAnswer::Refused { reason: words },
        Err(Refusal::Memory) => UserAnswer::Memory,
    }
}

fn delete_key(
    alloc: Global,
    group: &Text,
    kind: &Name,
    namespace: &Text,
    name: &Name,
) -> Result<Key, Memory>
    ensures { IfOk result (λ key. key ≡ record { group = group.now; kind = kind.now; namespace = namespace.now; name = name.now }) }
{
    Ok(Key {
        group: group.clone()?,
        kind: kind.clone()?,
        namespace: namespace.clone()?,
        name: name.clone()?,
    })
}

/// Removes what stands at a key. The namespace is empty for a kind that stands in none.
pub fn delete<C: Cluster>(
    alloc: Global,
    group: &Text,
    kind: &Name,
    namespace: &Text,
    name: &Name,
    cluster: &mut C,
) -> UserAnswer
    requires ready { C.ready cluster.old ≡ true }
    requires place { places.is_place namespace.now ≡ true }
    ensures answer { Answers C.fits (C.limit cluster.old) (C.history cluster.old) (λ asked. spec.delete (C.history cluster.old) (record { group = group.now; kind = kind.now; namespace = namespace.now; name = name.now }) ≡ asked) (C.history cluster.new) result }
    ensures limit { C.limit cluster.new ≡ C.limit cluster.old }
    ensures tells { C.tells cluster.new ≡ C.tells cluster.old }
    ensures sound { IsSound (C.tells cluster.old) (C.damage cluster.old) → IsSound (C.tells cluster.new) (C.damage cluster.new) }
    ensures cause { HasCause (C.faults cluster.old) (C.faults cluster.new) (store_failed result ≡ true) }
    ensures ready { C.ready cluster.new ≡ not (store_failed result) }
    ensures folder { folder_failed result ≡ false }
{
    match delete_key(alloc, group, kind, namespace, name) {
        Ok(key) => carry_out(alloc, key, Wish::Delete, cluster),
        Err(Memory) => UserAnswer::Memory,
    }
}

fn plan_key(alloc: Global, namespace: &Name, name: &Name) -> Result<Key, Memory>
    ensures key { IfOk result (λ key. key ≡ places.plan_key namespace.now name.now) }
    ensures place { IfOk result (λ key. places.is_place namespace.now ≡ true) }
{
    key_in(
        alloc,
        "operators.coreos.com",
        b"InstallPlan",
        namespace,
        name,
    )
}

/// Approves a plan.
pub fn approve<C: Cluster>(
    alloc: Global,
    namespace: &Name,
    name: &Name,
    cluster: &mut C,
) -> UserAnswer
    requires ready { C.ready cluster.old ≡ true }
    ensures answer { Answers C.fits (C.limit cluster.old) (C.history cluster.old) (λ asked. spec.approve (C.history cluster.old) namespace.now name.now ≡ asked) (C.history cluster.new) result }
    ensures limit { C.limit cluster.new ≡ C.limit cluster.old }
    ensures tells { C.tells cluster.new ≡ C.tells cluster.old }
    ensures sound { IsSound (C.tells cluster.old) (C.damage cluster.old) → IsSound (C.tells cluster.new) (C.damage cluster.new) }
    ensures cause { HasCause (C.faults cluster.old) (C.faults cluster.new) (store_failed result ≡ true) }
    ensures ready { C.ready cluster.new ≡ not (store_failed result) }
    ensures folder { folder_failed result ≡ false }
{
    match plan_key(alloc, namespace, name) {
        Ok(key) => carry_out(alloc, key, Wish::Approve, cluster),
        Err(Memory) => UserAnswer::Memory,
    }
}

fn deployment_key(alloc: Global, namespace: &Name, name: &Name) -> Result<Key, Memory>
    ensures key { IfOk result (λ key. key ≡ places.deployment_key namespace.now name.now) }
    ensures place { IfOk result (λ key. places.is_place namespace.now ≡ true) }
{
    key_in(alloc, "apps", b"Deployment", namespace, name)
}

/// Says how far a deployment is.
pub fn ready<C: Cluster>(
    alloc: Global,
    namespace: &Name,
    name: &Name,
    state: Readiness,
    cluster: &mut C,
) -> UserAnswer
    requires ready { C.ready cluster.old ≡ true }
    ensures answer { Answers C.fits (C.limit cluster.old) (C.history cluster.old) (λ asked. spec.ready (C.history cluster.old) namespace.now name.now state ≡ asked) (C.history cluster.new) result }
    ensures limit { C.limit cluster.new ≡ C.limit cluster.old }
    ensures tells { C.tells cluster.new ≡ C.tells cluster.old }
    ensures sound { IsSound (C.tells cluster.old) (C.damage cluster.old) → IsSound (C.tells cluster.new) (C.damage cluster.new) }
    ensures cause { HasCause (C.faults cluster.old) (C.faults cluster.new) (store_failed result ≡ true) }
    ensures ready { C.ready cluster.new ≡ not (store_failed result) }
    ensures folder { folder_failed result ≡ false }
{
    match deployment_key(alloc, namespace, name) {
        Ok(key) => carry_out(alloc, key, Wish::Ready { state }, cluster),
        Err(Memory) => UserAnswer::Memory,
    }
}

fn resolution_key(alloc: Global, namespace: &Name) -> Result<Key, Memory>
    ensures key { IfOk result (λ key. key ≡ places.resolution_key namespace.now) }
    ensures place { IfOk result (λ key. places.is_place namespace.now ≡ true) }
{
    let name = given_name(alloc, b"current")?;
    key_in(alloc, "olmctl.local", b"Resolution", namespace, &name)
}

/// Asks for a new resolution of a namespace, with this budget of lemmas.
pub fn retry<C: Cluster>(
    alloc: Global,
    namespace: &Name,
    budget: Option<u32>,
    cluster: &mut C,
) -> UserAnswer
    requires ready { C.ready cluster.old ≡ true }
    ensures answer { Answers C.fits (C.limit cluster.old) (C.history cluster.old) (λ asked. spec.retry (C.history cluster.old) namespace.now budget ≡ asked) (C.history cluster.new) result }
    ensures limit { C.limit cluster.new ≡ C.limit cluster.old }
    ensures tells { C.tells cluster.new ≡ C.tells cluster.old }
    ensures sound { IsSound (C.tells cluster.old) (C.damage cluster.old) → IsSound (C.tells cluster.new) (C.damage cluster.new) }
    ensures cause { HasCause (C.faults cluster.old) (C.faults cluster.new) (store_failed result ≡ true) }
    ensures ready { C.ready cluster.new ≡ not (store_failed result) }
    ensures folder { folder_failed result ≡ false }
{
    match resolution_key(alloc, namespace) {
        Ok(key) => carry_out(alloc, key, Wish::Retry { budget }, cluster),
        Err(Memory) => UserAnswer::Memory,
    }
}

fn claims_key(alloc: Global) -> Result<Key, Memory>
    ensures { IfOk result (λ key. key ≡ places.claims_key) }
{
    Ok(Key {
        group: Text::from_str(alloc, "olmctl.local")?,
        kind: given_name(alloc, b"Claims")?,
        namespace: Text::from_string(String::new(alloc)),
        name: given_name(alloc, b"claims")?,
    })
}

fn release_wish(namespace: &Name) -> Result<Wish, Memory>
    ensures { IfOk result (λ wish. wish ≡ Wish.Release namespace.now) }
{
    Ok(Wish::Release {
        namespace: namespace.clone()?,
    })
}

fn release_parts(alloc: Global, namespace: &Name) -> Result<(Key, Wish), Memory>
    ensures { IfOk result (λ parts. parts ≡ (places.claims_key, Wish.Release namespace.now)) }
{
    let key = claims_key(alloc)?;
    let wish = release_wish(namespace)?;
    Ok((key, wish))
}

/// Gives up the claims of a namespace.
///
/// It is refused where there are none: also where there is no object of claims.
pub fn release<C: Cluster>(alloc: Global, namespace: &Name, cluster: &mut C) -> UserAnswer
    requires ready { C.ready cluster.old ≡ true }
    ensures answer { Answers C.fits (C.limit cluster.old) (C.history cluster.old) (λ asked. spec.release (C.history cluster.old) namespace.now ≡ asked) (C.history cluster.new) result }
    ensures limit { C.limit cluster.new ≡ C.limit cluster.old }
    ensures tells { C.tells cluster.new ≡ C.tells cluster.old }
    ensures sound { IsSound (C.tells cluster.old) (C.damage cluster.old) → IsSound (C.tells cluster.new) (C.damage cluster.new) }
    ensures cause { HasCause (C.faults cluster.old) (C.faults cluster.new) (store_failed result ≡ true) }
    ensures ready { C.ready cluster.new ≡ not (store_failed result) }
    ensures folder { folder_failed result ≡ false }
{
    match release_parts(alloc, namespace) {
        Ok((key, wish)) => carry_out(alloc, key, wish, cluster),
        Err(Memory) => UserAnswer::Memory,
    }
}

fn catalog_key(alloc: Global, namespace: &Name, name: &Name) -> Result<Key, Memory>
    ensures key { IfOk result (λ key. key ≡ places.catalog_key namespace.now name.now) }
    ensures place { IfOk result (λ key. places.is_place namespace.now ≡ true) }
{
    key_in(
        alloc,
        "operators.coreos.com",
        b"CatalogSource",
        namespace,
        name,
    )
}

fn discard_body(_body: Bytes) {}

/// Gives a catalog source this body and this priority, whatever stands there. Whether the body is a catalog is for the
/// caller to know.
pub fn write_catalog<C: Cluster>(
    alloc: Global,
    namespace: &Name,
    name: &Name,
    body: Bytes,
    priority: i64,
    cluster: &mut C,
) -> UserAnswer
    requires ready { C.ready cluster.old ≡ true }
    ensures answer { Answers C.fits (C.limit cluster.old) (C.history cluster.old) (λ asked. spec.catalog (C.history cluster.old) namespace.now name.now body priority ≡ asked) (C.history cluster.new) result }
    ensures limit { C.limit cluster.new ≡ C.limit cluster.old }
    ensures tells { C.tells cluster.new ≡ C.tells cluster.old }
    ensures sound { IsSound (C.tells cluster.old) (C.damage cluster.old) → IsSound (C.tells cluster.new) (C.damage cluster.new) }
    ensures cause { HasCause (C.faults cluster.old) (C.faults cluster.new) (store_failed result ≡ true) }
    ensures ready { C.ready cluster.new ≡ not (store_failed result) }
    ensures folder { folder_failed result ≡ false }
{
    match catalog_key(alloc, namespace, name) {
        Ok(key) => carry_out(alloc, key, Wish::Catalog { body, priority }, cluster),
        Err(Memory) => {
            discard_body(body);
            UserAnswer::Memory
        }
    }
}
