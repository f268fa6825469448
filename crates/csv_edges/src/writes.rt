// The writes that edges make.
ghost use Rattle.std.specs.Prelude.{◌≡◌, IfOk, slice_get};
ghost use Rattle.std.specs.Option.{option_map};
ghost use Rattle.csv_phases.specs.Edges as edges;
ghost use Rattle.csv_phases.specs.Phases as spec;

use crate::forms::{puts, removes, with_status};
use crate::table::{applies, chosen, leads_to};
use cluster_objects::{CsvPhase, CsvStatus, Object, Status, Write};
use csv_phases::Edge;
use csv_view::{Csv, csvs_of};
use object_store::View;
use olm_base::Memory;
use std::alloc::Global;

fn status_in(status: &CsvStatus, phase: CsvPhase) -> Result<CsvStatus, Memory>
    ensures { IfOk result (λ changed. changed ≡ record status.now { phase = phase }) }
{
    let mut changed = status.clone()?;
    changed.phase = phase;
    Ok(changed)
}

// The CSV's object in another phase.
fn with_phase(view: &View, csv: &Csv, new: CsvPhase) -> Result<Object, Memory>
    ensures { IfOk result (λ object. object ≡ spec.with_phase view.now csv.now new) }
{
    let status = status_in(csv.status, new)?;
    with_status(view, csv.object, Status::Csv(status))
}

/// What an edge makes of a CSV.
pub fn edge_write(view: &View, csv: &Csv, edge: Edge) -> Result<Write, Memory>
    ensures { IfOk result (λ write. write ≡ spec.edge_write view.now csv.now edge) }
{
    match leads_to(edge) {
        None => removes(csv.key, csv.version),
        Some(new) => puts(csv.key, csv.version, with_phase(view, csv, new)?),
    }
}

// The write of the edge that the CSV takes, if it takes one.
fn chosen_write(alloc: Global, view: &View, csv: &Csv) -> Result<Option<Write>, Memory>
    ensures { IfOk result (λ write. write
        ≡ option_map (spec.edge_write view.now csv.now) (edges.chosen view.now csv.now)) }
{
    match chosen(alloc, view, csv)? {
        Some(edge) => Ok(Some(edge_write(view, csv, edge)?)),
        None => Ok(None),
    }
}

/// The first write of an edge of a CSV, by the order of the slots, and None exactly where no CSV takes an edge.
pub fn first_edge(alloc: Global, view: &View) -> Result<Option<Write>, Memory>
    ensures { IfOk result (λ write. write ≡ slice_get (spec.edge_writes view.now) 0) }
{
    let csvs = csvs_of(alloc, view)?;
    'csvs: for csv in csvs.as_slice() {
        if let Some(write) = chosen_write(alloc, view, csv)? {
            return Ok(Some(write));
        }
    }
    Ok(None)
}

/// The removal of the first CSV in Deleting, and None exactly where there is none.
pub fn first_removal(alloc: Global, view: &View) -> Result<Option<Write>, Memory>
    ensures { IfOk result (λ write. write ≡ slice_get (spec.removal_writes view.now) 0) }
{
    let csvs = csvs_of(alloc, view)?;
    'csvs: for csv in csvs.as_slice() {
        if applies(alloc, view, csv, Edge::Remove)? {
            return Ok(Some(edge_write(view, csv, Edge::Remove)?));
        }
    }
    Ok(None)
}
