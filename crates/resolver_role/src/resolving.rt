// The resolver's write.
ghost use Rattle.std.specs.Prelude.{IfOk};
ghost use Rattle.controller_rules.specs.Enabled as spec;

use crate::decisions::decision_write;
use crate::plans::plan_write;
use crate::resting::is_resting;
use crate::standing::standing_one;
use cluster_objects::Write;
use object_store::View;
use olm_base::Memory;
use std::alloc::Global;
use view_basis::basis_of;
use view_slots::resolution_key;

/// The resolver's write in the view, and None exactly where it has none. A new Resolution holds a decision of the
/// view's problem.
#[tactic(auto, using(crate::proofs::Writing::rests))]
pub fn resolver_first(alloc: Global, view: &View) -> Result<Option<Write>, Memory>
    ensures { IfOk result (λ write. spec.IsResolversFirst view.now write) }
{
    if is_resting(view) {
        return Ok(None);
    }
    let key = resolution_key(alloc, view.namespace())?;
    let basis = basis_of(alloc, view)?;
    match standing_one(view, &key, &basis) {
        Some(found) => plan_write(alloc, view, &key.namespace, found),
        None => Ok(Some(decision_write(alloc, view, key, basis)?)),
    }
}
