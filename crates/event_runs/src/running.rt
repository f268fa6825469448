// All events of a run.
ghost use Rattle.std.specs.List.{list_any};
ghost use Rattle.std.specs.Prelude.{◌≡◌, true, false, All, OnOk};
ghost use Rattle.olm_io.specs.Outside.{HasCause};
ghost use Rattle.object_store.specs.Puts.{IsSound};
ghost use Rattle.event_script.specs.Ranges.{IsInRange};
ghost use Rattle.event_script.specs.Running.{RunsNow};
ghost use Rattle.folder_events.specs.Events.{is_of_folder};
ghost use Rattle.event_runs.specs.Runs as spec;

use crate::events::run_event;
use crate::halts::Halt;
use event_script::Event;
use object_store::Cluster;
use olm_folder::Folder;
use olm_io::Sink;
use std::alloc::Global;

/// Applies the events of a list in their order, and puts the line of each before the next one is applied. The first
/// event that can't be applied, or whose line can't be put, ends the run; the writes before it stand.
///
/// Where no event is a `catalog` event the folder stays as it was: a `catalog` event alone reads it.
///
/// A restart leaves the history as it was where the store tells what it holds; else it goes on with what is read then.
pub fn run_events<C: Cluster, F: Folder, O: Sink>(
    alloc: Global,
    events: &[Event],
    cluster: &mut C,
    folder: &mut F,
    out: &mut O,
) -> Result<(), Halt>
    requires ready { C.ready cluster.old ≡ true }
    requires sound { IsSound (C.tells cluster.old) (C.damage cluster.old) }
    requires ranges { All IsInRange events.now }
    requires run { All RunsNow events.now }
    ensures runs { spec.Runs (C.tells cluster.old) C.fits (C.limit cluster.old) (F.held folder.old) (C.history cluster.old) events.now (C.history cluster.new) (O.held out.old) (O.held out.new) result }
    ensures tells { C.tells cluster.new ≡ C.tells cluster.old }
    ensures limit { C.limit cluster.new ≡ C.limit cluster.old }
    ensures sound { IsSound (C.tells cluster.new) (C.damage cluster.new) }
    ensures ready { OnOk result (C.ready cluster.new ≡ true) }
    ensures same { F.held folder.new ≡ F.held folder.old }
    ensures untouched { list_any is_of_folder events.now ≡ false → folder.new ≡ folder.old }
    ensures store { HasCause (C.faults cluster.old) (C.faults cluster.new) (spec.store_failed result ≡ true) }
    ensures folder { HasCause (F.faults folder.old) (F.faults folder.new) (spec.folder_failed result ≡ true) }
    ensures output { HasCause (O.faults out.old) (O.faults out.new) (spec.output_failed result ≡ true) }
{
    'events: for event in events {
        match run_event(alloc, event, cluster, folder, out) {
            Ok(()) => {}
            Err(halt) => return Err(halt),
        }
    }
    Ok(())
}
