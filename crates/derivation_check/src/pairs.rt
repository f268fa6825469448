// Whether the refutations are those of a walk: one for each choice and each number below the one taken, in order.
ghost use Rattle.std.specs.Prelude.{◌≡◌, ℕ, ◌<◌, ◌≤◌, ◌+◌, ◌^◌, ◌++◌, List, Some, length, map, drop, IfNone, IfSome};
ghost use Rattle.std.specs.Bool.{OnTrue};
ghost use Rattle.std.specs.List.{range_with_len};
ghost use Rattle.derivations.specs.Accepted.{pairs_from};
ghost use Rattle.derivation_check.specs.Faults.{pair_of, is_pair, is_next, pairs_fault};

use crate::CertFault;
use derivations::Refutation;

/// The first number of the choice whose refutation isn't next, from `start` on.
fn missing_at(
    steps: &[(u32, u32, Refutation)],
    start: usize,
    choice: u32,
    number: u32,
) -> Option<u32>
    requires short { length steps.now < 2 ^ 32 }
    requires start { start ≤ length steps.now }
    ensures none { IfNone result ((rest : List (ℕ × ℕ)) → pairs_fault start (map (λ j. (choice, j)) (range_with_len 0 number) ++ rest) (drop start (map pair_of steps.now)) ≡ pairs_fault (start + number) rest (drop (start + number) (map pair_of steps.now))) }
    ensures within { IfNone result (start + number ≤ length steps.now) }
    ensures some { IfSome result (λ j. (rest : List (ℕ × ℕ)) → pairs_fault start (map (λ j. (choice, j)) (range_with_len 0 number) ++ rest) (drop start (map pair_of steps.now)) ≡ Some (CertFault.Missing choice j)) }
{
    for candidate in 0..number {
        if !is_next_at(steps, start + candidate as usize, choice, candidate) {
            return Some(candidate);
        }
    }
    None
}

/// Whether the step at that place is there, and of that choice and candidate.
fn is_next_at(steps: &[(u32, u32, Refutation)], at: usize, choice: u32, candidate: u32) -> bool
    ensures next { result ≡ is_next (drop at (map pair_of steps.now)) (choice, candidate) }
    ensures within { OnTrue result (at < length steps.now) }
{
    if at < steps.len() {
        return is_step(&steps[at], choice, candidate);
    }
    false
}

/// Whether the step is of that choice and candidate.
fn is_step(step: &(u32, u32, Refutation), choice: u32, candidate: u32) -> bool
    ensures { result ≡ is_pair (choice, candidate) (pair_of step.now) }
{
    choice == step.0 && candidate == step.1
}

/// The first refutation that is missing, or else the first that is left over.
pub(crate) fn unpaired(numbers: &[u32], steps: &[(u32, u32, Refutation)]) -> Option<CertFault>
    requires few { length numbers.now < 2 ^ 32 }
    requires short { length steps.now < 2 ^ 32 }
    ensures { result ≡ pairs_fault 0 (pairs_from 0 numbers.now) (map pair_of steps.now) }
{
    let mut next = 0;
    for (i, number) in numbers.iter().enumerate() {
        match missing_at(steps, next, i as u32, *number) {
            None => {}
            Some(candidate) => {
                return Some(CertFault::Missing {
                    choice: i as u32,
                    candidate,
                });
            }
        }
        next += *number as usize;
    }
    if next < steps.len() {
        return Some(CertFault::Extra {
            position: next as u32,
        });
    }
    None
}
