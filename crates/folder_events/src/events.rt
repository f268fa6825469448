// Any event of a user.
ghost use Rattle.std.specs.Prelude.{◌≡◌, true, false, not};
ghost use Rattle.olm_io.specs.Outside.{HasCause};
ghost use Rattle.event_script.specs.Ranges.{IsInRange};
ghost use Rattle.object_store.specs.Puts.{IsSound};
ghost use Rattle.user_events.specs.Answers.{Answers, store_failed, folder_failed};
ghost use Rattle.folder_events.specs.Events as spec;

use crate::catalogs::catalog;
use event_script::Event;
use object_store::Cluster;
use olm_folder::Folder;
use std::alloc::Global;
use user_events::{UserAnswer, apply, approve, delete, ready, release, retry};

/// Whether it is an event of a user.
pub fn is_users(event: &Event) -> bool
    ensures { result ≡ spec.is_users event.now }
{
    match event {
        Event::Apply { .. }
        | Event::Delete { .. }
        | Event::Approve { .. }
        | Event::Catalog { .. }
        | Event::Ready { .. }
        | Event::Retry { .. }
        | Event::Release { .. } => true,
        Event::Worker { .. }
        | Event::Look { .. }
        | Event::Act { .. }
        | Event::Settle { .. }
        | Event::Restart
        | Event::Lease { .. } => false,
    }
}

/// Carries out an event of a user.
///
/// A `catalog` event reads the folder before the store is asked, and no other one reads it.
#[tactic(auto, using(crate::proofs::Groups::group_place))]
pub fn user_event<C: Cluster, F: Folder>(
    alloc: Global,
    event: &Event,
    cluster: &mut C,
    folder: &mut F,
) -> UserAnswer
    requires ready { C.ready cluster.old ≡ true }
    requires users { spec.is_users event.now ≡ true }
    requires range { IsInRange event.now }
    ensures answer { Answers C.fits (C.limit cluster.old) (C.history cluster.old) (spec.Asks (F.held folder.old) (C.history cluster.old) event.now) (C.history cluster.new) result }
    ensures key { store_failed result ≡ true → spec.HasKey event.now }
    ensures limit { C.limit cluster.new ≡ C.limit cluster.old }
    ensures tells { C.tells cluster.new ≡ C.tells cluster.old }
    ensures sound { IsSound (C.tells cluster.old) (C.damage cluster.old) → IsSound (C.tells cluster.new) (C.damage cluster.new) }
    ensures cause { HasCause (C.faults cluster.old) (C.faults cluster.new) (store_failed result ≡ true) }
    ensures ready { C.ready cluster.new ≡ not (store_failed result) }
    ensures unasked { folder_failed result ≡ true → cluster.new ≡ cluster.old }
    ensures folder { HasCause (F.faults folder.old) (F.faults folder.new) (folder_failed result ≡ true) }
    ensures of_folder { folder_failed result ≡ true → spec.is_of_folder event.now ≡ true }
    ensures same { F.held folder.new ≡ F.held folder.old }
    ensures untouched { spec.is_of_folder event.now ≡ false → folder.new ≡ folder.old }
{
    match event {
        Event::Apply { body } => apply(alloc, body, cluster),
        Event::Delete {
            group,
            kind,
            namespace,
            name,
        } => delete(alloc, group, kind, namespace, name, cluster),
        Event::Approve { namespace, name } => approve(alloc, namespace, name, cluster),
        Event::Catalog {
            namespace,
            name,
            path,
            priority,
        } => catalog(alloc, namespace, name, path, *priority, cluster, folder),
        Event::Ready {
            namespace,
            name,
            state,
        } => ready(alloc, namespace, name, *state, cluster),
        Event::Retry { namespace, budget } => retry(alloc, namespace, *budget, cluster),
        Event::Release { namespace } => release(alloc, namespace, cluster),
        Event::Worker { .. }
        | Event::Look { .. }
        | Event::Act { .. }
        | Event::Settle { .. }
        | Event::Restart
        | Event::Lease { .. } => unreachable!(),
    }
}
