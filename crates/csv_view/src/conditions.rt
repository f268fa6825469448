// The conditions of edges that rest on more than one object.
ghost use Rattle.std.specs.Prelude.{◌≡◌, IfOk};
ghost use Rattle.std.specs.List.{list_all};
ghost use Rattle.csv_phases.specs.Conditions as spec;

use crate::claims::{claims_are_held, group_fits};
use crate::csvs::{Csv, is_gone};
use cluster_objects::Crd;
use object_store::View;
use olm_base::Memory;
use std::alloc::Global;
use view_slots::{crd_key, object_at};

// Whether something stands at the key of the definition.
fn is_crd_there(alloc: Global, view: &View, crd: &Crd) -> Result<bool, Memory>
    ensures { IfOk result (λ there. there ≡ spec.is_crd_there view.now crd.now) }
{
    let key = crd_key(alloc, &crd.name)?;
    Ok(object_at(view, &key).is_some())
}

fn are_there(alloc: Global, view: &View, crds: &[Crd]) -> Result<bool, Memory>
    ensures { IfOk result (λ there. there ≡ list_all (spec.is_crd_there view.now) crds.now) }
{
    'crds: for crd in crds {
        if !is_crd_there(alloc, view, crd)? {
            return Ok(false);
        }
    }
    Ok(true)
}

/// Whether each definition that the CSV owns or needs is there.
pub fn crds_are_there(alloc: Global, view: &View, csv: &Csv) -> Result<bool, Memory>
    ensures { IfOk result (λ there. there ≡ spec.crds_are_there view.now csv.now) }
{
    if are_there(alloc, view, csv.status.owned.as_slice())? {
        are_there(alloc, view, csv.status.needed.as_slice())
    } else {
        Ok(false)
    }
}

// Whether the CSV that it replaces, if it replaces one, is absent, Replacing or Deleting.
fn replaced_is_gone(alloc: Global, view: &View, csv: &Csv) -> Result<bool, Memory>
    ensures { IfOk result (λ gone. gone ≡ spec.replaced_is_gone view.now csv.now) }
{
    match &csv.status.replaces {
        Some(name) => is_gone(alloc, view, name),
        None => Ok(true),
    }
}

/// Whether the CSV is ready to install.
pub fn is_ready(alloc: Global, view: &View, csv: &Csv) -> Result<bool, Memory>
    ensures { IfOk result (λ ready. ready ≡ spec.is_ready view.now csv.now) }
{
    if !crds_are_there(alloc, view, csv)? {
        return Ok(false);
    }
    if !replaced_is_gone(alloc, view, csv)? {
        return Ok(false);
    }
    if !group_fits(alloc, view, csv)? {
        return Ok(false);
    }
    claims_are_held(alloc, view, csv)
}
