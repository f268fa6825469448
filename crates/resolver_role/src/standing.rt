// The resolution that is there, and whether it still stands.
ghost use Rattle.std.specs.Prelude.{◌≡◌, ◌↔◌, ◌⊎◌, true, false, IsTrue, MatchBool, MatchOption, Some, option_copied};
ghost use Rattle.cluster_objects.specs.Kinds.{as_resolution};
ghost use Rattle.cluster_objects.specs.Places.{resolution_key};
ghost use Rattle.view_basis.specs.Basis.{basis};
ghost use Rattle.controller_rules.specs.Resolving as spec;

use cluster_objects::{Basis, Key, Object, ResolutionStatus, Status};
use object_store::View;
use view_slots::object_at;

fn resolution_of(object: &Object) -> Option<&ResolutionStatus>
    ensures { option_copied result ≡ as_resolution (Some object.now) }
{
    match &object.status {
        Status::Resolution(found) => Some(found),
        _ => None,
    }
}

/// The resolution of the view's namespace, if it has one. The key is that resolution's.
pub(crate) fn current<'a>(view: &'a View, key: &Key) -> Option<&'a ResolutionStatus>
    requires { key.now ≡ resolution_key view.now.namespace }
    ensures { option_copied result ≡ spec.current view.now }
{
    match object_at(view, key) {
        None => None,
        Some(object) => resolution_of(object),
    }
}

fn is_same_basis(left: &Basis, right: &Basis) -> bool
    ensures { IsTrue result ↔ (left.now ≡ right.now) }
{
    left == right
}

#[tactic(auto, using(crate::proofs::Fresh::by_basis))]
fn is_fresh(found: &ResolutionStatus, basis: &Basis) -> bool
    ensures { MatchBool result
        ((found.now.basis ≡ basis.now) × (found.now.again ≡ false))
        ((found.now.basis ≡ basis.now → ⊥) ⊎ (found.now.again ≡ true)) }
{
    !found.again && is_same_basis(&found.basis, basis)
}

/// The resolution that stands, and None exactly where a decision is due. The key is the resolution's, and the basis
/// is the view's.
#[tactic(auto, using(crate::proofs::Fresh::stands, crate::proofs::Fresh::due, crate::proofs::Fresh::due_without))]
pub(crate) fn standing_one<'a>(
    view: &'a View,
    key: &Key,
    now: &Basis,
) -> Option<&'a ResolutionStatus>
    requires key { key.now ≡ resolution_key view.now.namespace }
    requires basis { now.now ≡ basis view.now }
    ensures { MatchOption result
        (spec.IsDue view.now (spec.current view.now))
        (λ found. spec.Stands view.now found.now) }
{
    match current(view, key) {
        None => None,
        Some(found) => {
            if is_fresh(found, now) {
                Some(found)
            } else {
                None
            }
        }
    }
}
