// The subscriptions that a plan adds.
ghost use Rattle.std.specs.Prelude.{◌≡◌, ◌++◌, ◌∷◌, [], IfOk, OnOk};
ghost use Rattle.std.specs.Bool.{IsTrue};
ghost use Rattle.olm_base.specs.Names.{is_name};
ghost use Rattle.cluster_objects.specs.Places.{subscription_key};
ghost use Rattle.install_plan.specs.Plans as plans;
ghost use Rattle.install_plan.specs.Subscribing as spec;

use crate::turns::{Turn, Turned};
use cluster_objects::{Key, Made, Step, StepState, SubSpec, SubState, SubscriptionStatus, Taken};
use olm_base::{Bytes, Memory, NAME_LIMIT, Name, NameFault, Text};
use std::alloc::Global;

/// Whether somebody subscribed to the package that is taken.
pub(crate) fn is_subscribed(subscriptions: &[(Name, SubSpec)], taken: &Taken) -> bool
    ensures { result ≡ spec.is_subscribed subscriptions.now taken.now }
{
    subscriptions
        .iter()
        .any(|subscription| subscription.1.package == taken.package)
}

fn takes_package(taken: &[Taken], name: &Name) -> bool
    ensures { result ≡ spec.takes_package taken.now name.now }
{
    taken.iter().any(|one| one.package == *name)
}

/// Whether a plan for this is to be approved.
pub fn is_manual(subscriptions: &[(Name, SubSpec)], taken: &[Taken]) -> bool
    ensures { result ≡ spec.is_manual subscriptions.now taken.now }
{
    subscriptions.iter().any(|subscription| subscription.1.manual
        && takes_package(taken, &subscription.1.package))
}

// A name is valid UTF-8.
fn as_text(name: &Name) -> &str
    ensures { result.now ≡ name.now }
{
    match str::from_utf8(name.as_bytes()) {
        Ok(text) => text,
        Err(_) => unreachable!(),
    }
}

// The name of bytes that are one.
fn given_name(alloc: Global, text: &[u8]) -> Result<Name, Memory>
    requires { IsTrue (is_name text.now) }
    ensures { IfOk result (λ name. name ≡ text.now) }
{
    match Name::new(alloc, text) {
        Ok(name) => Ok(name),
        Err(NameFault::Memory) => Err(Memory),
        Err(NameFault::Bad) => unreachable!(),
    }
}

fn joined_name(alloc: Global, taken: &Taken) -> Result<Vec<u8>, Memory>
    ensures text { IfOk result (λ text. text.items ≡ spec.new_name taken.now) }
    ensures name { IfOk result (λ text. IsTrue (is_name (spec.new_name taken.now))) }
{
    let mut text = Vec::new(alloc);
    text.extend_from_slice(taken.package.as_bytes())?;
    text.push(b'-')?;
    text.extend_from_slice(taken.channel.as_bytes())?;
    text.push(b'-')?;
    text.extend_from_slice(taken.catalog.as_bytes())?;
    text.push(b'-')?;
    text.extend_from_slice(taken.catalog_namespace.as_bytes())?;
    text.truncate(NAME_LIMIT);
    Ok(text)
}

fn new_name(alloc: Global, taken: &Taken) -> Result<Name, Memory>
    ensures { IfOk result (λ name. name ≡ spec.new_name taken.now) }
{
    let text = joined_name(alloc, taken)?;
    given_name(alloc, text.as_slice())
}

fn new_key(alloc: Global, namespace: &Name, name: Name) -> Result<Key, Memory>
    ensures { IfOk result (λ key. key ≡ subscription_key namespace.now name) }
{
    Ok(Key {
        group: Text::from_str(alloc, "operators.coreos.com")?,
        kind: given_name(alloc, b"Subscription")?,
        namespace: Text::from_str(alloc, as_text(namespace))?,
        name,
    })
}

fn new_spec(manual: bool, taken: &Taken) -> Result<SubSpec, Memory>
    ensures { IfOk result (λ asked. asked ≡ spec.new_spec manual taken.now) }
{
    Ok(SubSpec {
        package: taken.package.clone()?,
        channel: Some(taken.channel.clone()?),
        source: taken.catalog.clone()?,
        source_namespace: taken.catalog_namespace.clone()?,
        starting: Some(taken.name.clone()?),
        manual,
    })
}

fn approval(manual: bool) -> &'static [u8]
    ensures { result.now ≡ spec.approval manual }
{
    if manual { b"Manual" } else { b"Automatic" }
}

// Appends fixed bytes and then a name.
fn add(out: &mut Vec<u8>, fixed: &[u8], name: &Name) -> Result<(), Memory>
    ensures { OnOk result (out.new.items ≡ out.old.items ++ fixed.now ++ name.now) }
{
    out.extend_from_slice(fixed)?;
    out.extend_from_slice(name.as_bytes())?;
    Ok(())
}

fn add_approval(out: &mut Vec<u8>, fixed: &[u8], manual: bool) -> Result<(), Memory>
    ensures { OnOk result (out.new.items ≡ out.old.items ++ fixed.now ++ spec.approval manual) }
{
    out.extend_from_slice(fixed)?;
    out.extend_from_slice(approval(manual))?;
    Ok(())
}

fn add_channel(out: &mut Vec<u8>, manual: bool, taken: &Taken) -> Result<(), Memory>
    ensures { OnOk result (out.new.items ≡ out.old.items ++ spec.channel_fields manual taken.now) }
{
    add(out, b"\"channel\":\"", &taken.channel)?;
    add_approval(out, b"\",\"installPlanApproval\":\"", manual)?;
    Ok(())
}

fn add_source(out: &mut Vec<u8>, taken: &Taken) -> Result<(), Memory>
    ensures { OnOk result (out.new.items ≡ out.old.items ++ spec.source_fields taken.now) }
{
    add(out, b"\",\"name\":\"", &taken.package)?;
    add(out, b"\",\"source\":\"", &taken.catalog)?;
    Ok(())
}

fn add_last(out: &mut Vec<u8>, taken: &Taken) -> Result<(), Memory>
    ensures { OnOk result (out.new.items ≡ out.old.items ++ spec.last_fields taken.now) }
{
    add(out, b"\",\"sourceNamespace\":\"", &taken.catalog_namespace)?;
    add(out, b"\",\"startingCSV\":\"", &taken.name)?;
    Ok(())
}

fn add_spec(out: &mut Vec<u8>, manual: bool, taken: &Taken) -> Result<(), Memory>
    ensures { OnOk result (out.new.items ≡ out.old.items ++ spec.body_of_spec manual taken.now) }
{
    out.extend_from_slice(b"\"},\"spec\":{")?;
    add_channel(out, manual, taken)?;
    add_source(out, taken)?;
    add_last(out, taken)?;
    out.extend_from_slice(b"\"}}")?;
    Ok(())
}

fn new_body(
    alloc: Global,
    namespace: &Name,
    name: &Name,
    manual: bool,
    taken: &Taken,
) -> Result<Bytes, Memory>
    ensures { IfOk result (λ body. body ≡ spec.body_named name.now namespace.now manual taken.now) }
{
    let mut out = Vec::new(alloc);
    out.extend_from_slice(b"{\"apiVersion\":\"operators.coreos.com/v1alpha1\"")?;
    add(
        &mut out,
        b",\"kind\":\"Subscription\",\"metadata\":{\"name\":\"",
        name,
    )?;
    add(&mut out, b"\",\"namespace\":\"", namespace)?;
    add_spec(&mut out, manual, taken)?;
    Ok(Bytes::from_vec(out))
}

fn new_subscription(
    alloc: Global,
    namespace: &Name,
    manual: bool,
    taken: &Taken,
) -> Result<Step, Memory>
    ensures { IfOk result (λ step. step ≡ spec.new_subscription namespace.now manual taken.now) }
{
    let name = new_name(alloc, taken)?;
    let body = new_body(alloc, namespace, &name, manual, taken)?;
    Ok(Step {
        key: new_key(alloc, namespace, name)?,
        body,
        made: Made::Subscription(SubscriptionStatus {
            spec: new_spec(manual, taken)?,
            state: SubState::Nothing,
        }),
        state: StepState::Unknown,
    })
}

fn of_plan(step: Step) -> Turned
    ensures { result ≡ plans.of_plan step }
{
    Turned {
        turn: Turn::Added,
        step,
    }
}

// Appends the subscription to the package that is taken, unless somebody subscribed to it.
fn add_subscription(
    alloc: Global,
    turned: &mut Vec<Turned>,
    namespace: &Name,
    subscriptions: &[(Name, SubSpec)],
    manual: bool,
    one: &Taken,
) -> Result<(), Memory>
    ensures { OnOk result (turned.new.items ≡ turned.old.items ++ plans.added_steps namespace.now subscriptions.now manual (one.now ∷ [])) }
{
    if is_subscribed(subscriptions, one) {
        return Ok(());
    }
    turned.push(of_plan(new_subscription(alloc, namespace, manual, one)?))?;
    Ok(())
}

/// Appends the subscriptions that a plan adds. After want of memory a beginning of them may stand there.
pub(crate) fn add_subscriptions(
    alloc: Global,
    turned: &mut Vec<Turned>,
    namespace: &Name,
    subscriptions: &[(Name, SubSpec)],
    taken: &[Taken],
) -> Result<(), Memory>
    ensures { OnOk result (turned.new.items ≡ turned.old.items ++ plans.added_steps namespace.now subscriptions.now (spec.is_manual subscriptions.now taken.now) taken.now) }
{
    let manual = is_manual(subscriptions, taken);
    for one in taken {
        add_subscription(alloc, turned, namespace, subscriptions, manual, one)?;
    }
    Ok(())
}
