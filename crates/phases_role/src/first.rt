// The first write of the role phases.
ghost use Rattle.std.specs.Prelude.{◌≡◌, IfOk, slice_get};
ghost use Rattle.csv_phases.specs.Phases as spec;

use crate::claims::first_claims;
use crate::collecting::first_collection;
use crate::deployments::first_deployment;
use cluster_objects::Write;
use csv_edges::{first_edge, first_removal};
use object_store::View;
use olm_base::Memory;
use std::alloc::Global;
use subscription_states::first_state;

/// The first of the role's writes in the view, and None exactly where it has none.
pub fn phases_first(alloc: Global, view: &View) -> Result<Option<Write>, Memory>
    ensures { IfOk result (λ write. write ≡ slice_get (spec.phases_writes view.now) 0) }
{
    if let Some(write) = first_edge(alloc, view)? {
        return Ok(Some(write));
    }
    if let Some(write) = first_removal(alloc, view)? {
        return Ok(Some(write));
    }
    if let Some(write) = first_claims(alloc, view)? {
        return Ok(Some(write));
    }
    if let Some(write) = first_deployment(alloc, view)? {
        return Ok(Some(write));
    }
    if let Some(write) = first_collection(alloc, view)? {
        return Ok(Some(write));
    }
    first_state(alloc, view)
}
