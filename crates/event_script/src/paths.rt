// The paths of faults.
ghost use Rattle.olm_base.specs.Outcome.{Gives};
ghost use Rattle.json_fields.specs.Faults.{is_free, below, key_step, here};

use json_fields::Fault;
use olm_base::FieldKind;
use std::alloc::Global;

/// What was read at a key, as seen from the object.
pub fn at<T: Drop>(alloc: Global, found: Result<T, FieldKind>, key: &str) -> Result<T, Fault>
    ensures { Gives is_free (below (key_step key.now) (here found)) result }
{
    match found {
        Ok(value) => Ok(value),
        Err(kind) => Err(Fault::here(alloc, kind).below_key(alloc, key)),
    }
}
