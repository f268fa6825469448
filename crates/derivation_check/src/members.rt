// Whether the members that a hint names fit their constraint, in one pass over each of the two lists.
ghost use Rattle.std.specs.Prelude.{◌≡◌, ◌<◌, length, Some};
ghost use Rattle.std.specs.List.{AllByRecursion};
ghost use Rattle.derivations.specs.Clauses.{is_too_many};
ghost use Rattle.derivation_check.specs.Members.{listed_in, are_struck};

use crate::marks::Marks;
use op_constraints::VarId;

/// Whether the named ones are one more than `most`, each once, and each among the members.
pub(crate) fn are_too_many(marks: &mut Marks, most: u32, members: &[VarId], named: &[VarId]) -> bool
    requires { AllByRecursion (λ m. m < length marks.old) members.now }
    ensures answer { result ≡ is_too_many most members.now named.now }
    ensures same { length marks.new ≡ length marks.old }
{
    if named.len() != most as usize + 1 {
        return false;
    }
    marks.clear();
    list_all(marks, members);
    strike_all(marks, named)
}

/// Marks each of the variables.
fn list_all(marks: &mut Marks, vars: &[VarId])
    ensures listed { marks.new ≡ listed_in marks.old vars.now }
    ensures same { length marks.new ≡ length marks.old }
{
    for var in vars {
        marks.set(*var, true);
    }
}

/// Strikes one variable after the other, up to the first that isn't marked or was struck before.
fn strike_all(marks: &mut Marks, vars: &[VarId]) -> bool
    ensures struck { result ≡ are_struck marks.old vars.now }
    ensures same { length marks.new ≡ length marks.old }
{
    for var in vars {
        if marks.get(*var) != Some(true) {
            return false;
        }
        marks.set(*var, false);
    }
    true
}
