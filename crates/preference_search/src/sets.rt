// Sets of variables.
ghost use Rattle.std.specs.Prelude.{◌≡◌, ◌<◌, length, IfOk};
ghost use Rattle.std.specs.List.{AllByRecursion};
ghost use Rattle.op_constraints.specs.Meets.{at};
ghost use Rattle.op_constraints.specs.Walks.{is_among};

use olm_base::Memory;
use op_constraints::{Problem, VarId};
use std::alloc::Global;

/// The set of these variables, as a bit for each variable.
pub(crate) fn bits_of(alloc: Global, problem: &Problem, vars: &[VarId]) -> Result<Vec<bool>, Memory>
    requires { AllByRecursion (λ v. v < length problem.now) vars.now }
    ensures size { IfOk result (λ bits. length bits.items ≡ length problem.now) }
    ensures same { IfOk result (λ bits. at bits.items ≡ is_among vars.now) }
{
    let mut bits = vec![in alloc; false; problem.len()]?;
    for var in vars {
        bits[var.0 as usize] = true;
    }
    Ok(bits)
}
