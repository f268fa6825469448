// The CSVs above one: those that name it, those that name one of these, and so on.
ghost use Rattle.std.specs.Prelude.{◌≡◌, ◌&&◌, IfOk, option_copied};
ghost use Rattle.std.specs.List.{list_any};
ghost use Rattle.std.specs.Option.{option_and_then};
ghost use Rattle.csv_phases.specs.Conditions as conditions;
ghost use Rattle.csv_phases.specs.Csvs as spec;

use crate::csvs::{Csv, csv_named, csvs_of, is_in};
use cluster_objects::CsvPhase;
use object_store::View;
use olm_base::{Memory, Name};
use std::alloc::Global;
use view_basis::is_forward;

fn is_succeeded(csv: &Csv) -> bool
    ensures { result ≡ conditions.is_succeeded csv.now }
{
    is_in(CsvPhase::Succeeded, csv.status.phase)
}

// Whether the CSV is another one than that of this name, and names it in `replaces`.
fn is_directly_above(name: &Name, csv: &Csv) -> bool
    ensures { result ≡ spec.is_directly_above name.now csv.now }
{
    if csv.key.name == *name {
        return false;
    }
    match &csv.status.replaces {
        Some(replaced) => name == replaced,
        None => false,
    }
}

// What the CSV of this name replaces, if it is there and replaces one.
fn replaced_by<'a>(alloc: Global, view: &'a View, name: &Name) -> Result<Option<&'a Name>, Memory>
    ensures { IfOk result (λ replaced. option_copied replaced
        ≡ option_and_then (λ csv. csv.replaces) (spec.csv_named view.now name.now)) }
{
    match csv_named(alloc, view, name)? {
        Some(csv) => Ok(csv.replaces.as_ref()),
        None => Ok(None),
    }
}

// Whether who follows what each CSV replaces, from the first name on, comes to the second name in at most so many
// steps.
#[tactic(auto, using(crate::proofs::Walks::leads_on))]
fn leads_to(
    alloc: Global,
    steps: usize,
    view: &View,
    from: &Name,
    name: &Name,
) -> Result<bool, Memory>
    ensures { IfOk result (λ leads. leads ≡ spec.leads_to steps view.now from.now name.now) }
{
    let mut at = from;
    let mut left = steps;
    'steps: while left > 0 {
        left -= 1;
        let Some(next) = replaced_by(alloc, view, at)? else {
            return Ok(false);
        };
        if name == next {
            return Ok(true);
        }
        at = next;
    }
    Ok(false)
}

fn is_above(alloc: Global, view: &View, name: &Name, csv: &Csv) -> Result<bool, Memory>
    ensures { IfOk result (λ above. above ≡ spec.is_above view.now name.now csv.now) }
{
    if csv.key.name == *name {
        return Ok(false);
    }
    leads_to(alloc, view.slots().len(), view, &csv.key.name, name)
}

// Whether one of the CSVs names this one and has succeeded.
fn has_direct(csvs: &[Csv], name: &Name) -> bool
    ensures { result ≡ list_any
        (λ other. spec.is_directly_above name.now other && conditions.is_succeeded other) csvs.now }
{
    csvs.iter().any(|other| is_directly_above(name, other) && is_succeeded(other))
}

// Whether the CSV is above this one and has succeeded.
fn is_succeeded_over(alloc: Global, view: &View, name: &Name, csv: &Csv) -> Result<bool, Memory>
    ensures { IfOk result (λ above. above
        ≡ (spec.is_above view.now name.now csv.now && conditions.is_succeeded csv.now)) }
{
    if is_succeeded(csv) {
        is_above(alloc, view, name, csv)
    } else {
        Ok(false)
    }
}

// Whether one of the CSVs is above this one and has succeeded.
fn has_above(alloc: Global, view: &View, csvs: &[Csv], name: &Name) -> Result<bool, Memory>
    ensures { IfOk result (λ above. above ≡ list_any
        (λ other. spec.is_above view.now name.now other && conditions.is_succeeded other) csvs.now) }
{
    'csvs: for other in csvs {
        if is_succeeded_over(alloc, view, name, other)? {
            return Ok(true);
        }
    }
    Ok(false)
}

/// Whether a CSV that names this one has succeeded, or in a forward namespace one above it.
pub fn is_succeeded_above(alloc: Global, view: &View, csv: &Csv) -> Result<bool, Memory>
    ensures { IfOk result (λ succeeded. succeeded ≡ conditions.is_succeeded_above view.now csv.now) }
{
    let csvs = csvs_of(alloc, view)?;
    let name = &csv.key.name;
    if has_direct(csvs.as_slice(), name) {
        return Ok(true);
    }
    if is_forward(view) {
        has_above(alloc, view, csvs.as_slice(), name)
    } else {
        Ok(false)
    }
}
