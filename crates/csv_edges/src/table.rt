// The table of edges, and the one that a CSV takes.
ghost use Rattle.std.specs.Prelude.{◌≡◌, ◌&&◌, IfOk, not};
ghost use Rattle.std.specs.List.{find};
ghost use Rattle.cluster_history.specs.Views.{View};
ghost use Rattle.csv_phases.specs.Conditions as conditions;
ghost use Rattle.csv_phases.specs.Csvs.{Csv};
ghost use Rattle.csv_phases.specs.Edges as spec;

use cluster_objects::CsvPhase;
use csv_phases::Edge;
use csv_view::{
    Csv, crds_are_there, deployment_is_lost, deployments_are_ready, deployments_are_there,
    group_fits, is_current, is_in, is_ready, is_succeeded_above, owns_failed,
};
use object_store::View;
use olm_base::Memory;
use std::alloc::Global;
use view_basis::is_replaced;

/// The edges but for the removal, in the order in which they are tried.
const MOVES: [Edge; 12] = [
    Edge::Begin,
    Edge::Ready,
    Edge::Unready,
    Edge::Misfit,
    Edge::Deploy,
    Edge::Succeed,
    Edge::InstallFailed,
    Edge::CrdLost,
    Edge::DeploymentLost,
    Edge::Recover,
    Edge::Replaced,
    Edge::Retire,
];

// Whether the edge leads from this phase.
fn leads_from(edge: Edge, phase: CsvPhase) -> bool
    ensures { (view : View) (csv : Csv) → result ≡ (spec.row view csv edge).from phase }
{
    match edge {
        Edge::Begin => is_in(CsvPhase::Nothing, phase),
        Edge::Ready => is_in(CsvPhase::Pending, phase),
        Edge::Unready => is_in(CsvPhase::InstallReady, phase),
        Edge::Misfit => is_in(CsvPhase::Pending, phase),
        Edge::Deploy => is_in(CsvPhase::InstallReady, phase),
        Edge::Succeed => is_in(CsvPhase::Installing, phase),
        Edge::InstallFailed => is_in(CsvPhase::Installing, phase),
        Edge::CrdLost => is_in(CsvPhase::Succeeded, phase),
        Edge::DeploymentLost => is_in(CsvPhase::Succeeded, phase),
        Edge::Recover => is_in(CsvPhase::Failed, phase),
        Edge::Replaced => is_current(phase),
        Edge::Retire => is_in(CsvPhase::Replacing, phase),
        Edge::Remove => is_in(CsvPhase::Deleting, phase),
    }
}

// The phase to which the edge leads, or None where it removes.
pub(crate) fn leads_to(edge: Edge) -> Option<CsvPhase>
    ensures { (view : View) (csv : Csv) → result ≡ (spec.row view csv edge).to }
{
    match edge {
        Edge::Begin => Some(CsvPhase::Pending),
        Edge::Ready => Some(CsvPhase::InstallReady),
        Edge::Unready => Some(CsvPhase::Pending),
        Edge::Misfit => Some(CsvPhase::Failed),
        Edge::Deploy => Some(CsvPhase::Installing),
        Edge::Succeed => Some(CsvPhase::Succeeded),
        Edge::InstallFailed => Some(CsvPhase::Failed),
        Edge::CrdLost => Some(CsvPhase::Pending),
        Edge::DeploymentLost => Some(CsvPhase::Failed),
        Edge::Recover => Some(CsvPhase::Pending),
        Edge::Replaced => Some(CsvPhase::Replacing),
        Edge::Retire => Some(CsvPhase::Deleting),
        Edge::Remove => None,
    }
}

// Whether the CSV may be tried again.
fn may_recover(alloc: Global, view: &View, csv: &Csv) -> Result<bool, Memory>
    ensures { IfOk result (λ may. may
        ≡ (conditions.crds_are_there view.now csv.now && not (conditions.owns_failed view.now csv.now)
        && conditions.group_fits view.now csv.now)) }
{
    if !crds_are_there(alloc, view, csv)? {
        return Ok(false);
    }
    if owns_failed(view, csv) {
        return Ok(false);
    }
    group_fits(alloc, view, csv)
}

// Whether the edge's condition holds, whatever the CSV's phase.
fn holds(alloc: Global, view: &View, csv: &Csv, edge: Edge) -> Result<bool, Memory>
    ensures { IfOk result (λ holds. holds ≡ (spec.row view.now csv.now edge).holds) }
{
    match edge {
        Edge::Begin => Ok(true),
        Edge::Ready => is_ready(alloc, view, csv),
        Edge::Unready => Ok(!is_ready(alloc, view, csv)?),
        Edge::Misfit => Ok(!group_fits(alloc, view, csv)?),
        Edge::Deploy => deployments_are_there(alloc, view, csv),
        Edge::Succeed => deployments_are_ready(alloc, view, csv),
        Edge::InstallFailed => deployment_is_lost(alloc, view, csv),
        Edge::CrdLost => Ok(!crds_are_there(alloc, view, csv)?),
        Edge::DeploymentLost => deployment_is_lost(alloc, view, csv),
        Edge::Recover => may_recover(alloc, view, csv),
        Edge::Replaced => Ok(is_replaced(view, &csv.key.name)),
        Edge::Retire => is_succeeded_above(alloc, view, csv),
        Edge::Remove => Ok(true),
    }
}

/// Whether the edge leads on from where the CSV stands. Its condition is asked only where it leads from the CSV's phase.
pub fn applies(alloc: Global, view: &View, csv: &Csv, edge: Edge) -> Result<bool, Memory>
    ensures { IfOk result (λ applies. applies ≡ spec.applies view.now csv.now edge) }
{
    if leads_from(edge, csv.status.phase) {
        holds(alloc, view, csv, edge)
    } else {
        Ok(false)
    }
}

// The first of these edges that applies.
fn first_applying(
    alloc: Global,
    view: &View,
    csv: &Csv,
    edges: &[Edge],
) -> Result<Option<Edge>, Memory>
    ensures { IfOk result (λ edge. edge ≡ find (spec.applies view.now csv.now) edges.now) }
{
    'edges: for edge in edges {
        if applies(alloc, view, csv, *edge)? {
            return Ok(Some(*edge));
        }
    }
    Ok(None)
}

/// The edge that the CSV takes, if it takes one: `Replaced` where it applies, or else that of the lowest number.
pub fn chosen(alloc: Global, view: &View, csv: &Csv) -> Result<Option<Edge>, Memory>
    ensures { IfOk result (λ edge. edge ≡ spec.chosen view.now csv.now) }
{
    if applies(alloc, view, csv, Edge::Replaced)? {
        return Ok(Some(Edge::Replaced));
    }
    first_applying(alloc, view, csv, &MOVES)
}
