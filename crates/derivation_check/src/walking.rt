// Walking by a certificate's numbers.
ghost use Rattle.std.specs.Prelude.{◌≡◌, ◌<◌, ◌^◌, nat_lt, length, IfNone, Some};
ghost use Rattle.op_constraints.specs.Walks.{choice, waiting, mandatory, walk};
ghost use Rattle.derivation_check.specs.Faults.{is_ended, walk_fault};

use crate::CertFault;
use op_constraints::Walk;

/// Whether the number lies in the list that waits for a choice.
fn offers(path: &mut Walk<'_>, number: u32) -> bool
    ensures same { path.new ≡ path.old }
    ensures offered { result ≡ nat_lt number (length (choice path.old.problem path.old.chosen)) }
{
    match path.next_choice() {
        Some(members) => (number as usize) < members.len(),
        None => false,
    }
}

/// Whether no list waits.
fn ended(path: &mut Walk<'_>) -> bool
    ensures same { path.new ≡ path.old }
    ensures ended { result ≡ is_ended (waiting path.old.problem path.old.chosen) }
{
    path.next_choice().is_none()
}

/// Takes the numbers, up to the first fault.
pub(crate) fn walk_along(path: &mut Walk<'_>, numbers: &[u32]) -> Option<CertFault>
    requires begun { path.old.chosen ≡ mandatory path.old.problem }
    requires short { length numbers.now < 2 ^ 32 }
    ensures problem { path.new.problem ≡ path.old.problem }
    ensures fault { result ≡ walk_fault path.old.problem (mandatory path.old.problem) 0 numbers.now }
    ensures walked { IfNone result (walk path.old.problem numbers.now ≡ Some path.new.chosen) }
{
    for (i, number) in numbers.iter().enumerate() {
        if !offers(path, *number) {
            return Some(CertFault::Walk { position: i as u32 });
        }
        path.take(*number);
    }
    if ended(path) {
        None
    } else {
        Some(CertFault::Walk {
            position: numbers.len() as u32,
        })
    }
}
