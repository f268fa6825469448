// The view of a catalog and one subscription.
ghost use Rattle.std.specs.Prelude.{◌≡◌, ◌<◌, IfOk, OnOk, IsTrue};
ghost use Rattle.olm_base.specs.Names.{is_name};
ghost use Rattle.cluster_history.specs.History.{After, Start, after_all, empty, position};
ghost use Rattle.object_store.specs.Puts.{Agrees};
ghost use Rattle.one_subscription.specs.Asked as spec;

use cluster_objects::{
    CatalogStatus, Key, Object, Status, SubSpec, SubState, SubscriptionStatus, Write, Writer,
};
use object_store::{Cluster, ClusterFault, PutAnswer, SureCluster, View};
use olm_base::{Bytes, Memory, Name, NameFault, Text};
use std::alloc::Global;

// A name that the program itself gives.
fn given_name(alloc: Global, text: &[u8]) -> Result<Name, Memory>
    requires { IsTrue (is_name text.now) }
    ensures { IfOk result (λ name. name ≡ text.now) }
{
    match Name::new(alloc, text) {
        Ok(name) => Ok(name),
        Err(NameFault::Memory) => Err(Memory),
        Err(NameFault::Bad) => unreachable!(),
    }
}

fn catalog_write(alloc: Global, body: Bytes) -> Result<Write, Memory>
    ensures { IfOk result (λ write. write ≡ spec.catalog_write body) }
{
    Ok(Write {
        by: Writer::User,
        expect: 0,
        key: Key {
            group: Text::from_str(alloc, "operators.coreos.com")?,
            kind: given_name(alloc, b"CatalogSource")?,
            namespace: Text::from_str(alloc, "olm")?,
            name: given_name(alloc, b"catalog")?,
        },
        object: Some(Object {
            body,
            status: Status::Catalog(CatalogStatus { priority: 0 }),
            owner: None,
            stamp: None,
            seen: 0,
        }),
    })
}

fn subscription_spec(alloc: Global, package_name: &Name, channel: &Name) -> Result<SubSpec, Memory>
    ensures { IfOk result (λ it. it ≡ spec.subscription_spec package_name.now channel.now) }
{
    Ok(SubSpec {
        package: package_name.clone()?,
        channel: Some(channel.clone()?),
        source: given_name(alloc, b"catalog")?,
        source_namespace: given_name(alloc, b"olm")?,
        starting: None,
        manual: false,
    })
}

fn subscription_write(alloc: Global, package_name: &Name, channel: &Name) -> Result<Write, Memory>
    ensures { IfOk result (λ write. write ≡ spec.subscription_write package_name.now channel.now) }
{
    Ok(Write {
        by: Writer::User,
        expect: 0,
        key: Key {
            group: Text::from_str(alloc, "operators.coreos.com")?,
            kind: given_name(alloc, b"Subscription")?,
            namespace: Text::from_str(alloc, "default")?,
            name: package_name.clone()?,
        },
        object: Some(Object {
            body: Bytes::from_vec(Vec::new(alloc)),
            status: Status::Subscription(SubscriptionStatus {
                spec: subscription_spec(alloc, package_name, channel)?,
                state: SubState::Nothing,
            }),
            owner: None,
            stamp: None,
            seen: 1,
        }),
    })
}

// Makes the first write of its key, into a store that has room.
fn put_first(alloc: Global, cluster: &mut SureCluster, write: Write) -> Result<(), Memory>
    requires agrees { Agrees (after_all (Start empty) cluster.old.1) write }
    requires room { position (after_all (Start empty) cluster.old.1) < cluster.old.0 }
    ensures history { OnOk result (after_all (Start empty) cluster.new.1 ≡ After write (after_all (Start empty) cluster.old.1)) }
    ensures limit { cluster.new.0 ≡ cluster.old.0 }
{
    match cluster.put(alloc, write) {
        PutAnswer::Done { version: _ } => Ok(()),
        PutAnswer::Memory => Err(Memory),
        PutAnswer::Conflict { found: _ } | PutAnswer::Full | PutAnswer::Failed => unreachable!(),
    }
}

#[tactic(auto, using(crate::proofs::First::subscription_is_first))]
/// What the namespace `default` sees where only this catalog, as `olm/catalog` with the priority 0, and one
/// subscription, named as its package, were written.
pub fn asked_view(
    alloc: Global,
    body: Bytes,
    package_name: &Name,
    channel: &Name,
) -> Result<View, Memory>
    ensures { IfOk result (λ view. view ≡ spec.asked_view body package_name.now channel.now) }
{
    let mut cluster = SureCluster::new(alloc, 2);
    put_first(alloc, &mut cluster, catalog_write(alloc, body)?)?;
    put_first(
        alloc,
        &mut cluster,
        subscription_write(alloc, package_name, channel)?,
    )?;
    let namespace = given_name(alloc, b"default")?;
    match cluster.snapshot(alloc, &namespace) {
        Ok(view) => Ok(view),
        Err(ClusterFault::Memory) => Err(Memory),
        Err(ClusterFault::Failed | ClusterFault::Damaged { at: _ }) => unreachable!(),
    }
}
