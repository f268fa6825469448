// The state of a subscription.
ghost use Rattle.std.specs.Prelude.{◌≡◌, IfOk, IfSome, is_none};
ghost use Rattle.view_basis.specs.Tips.{installed};
ghost use Rattle.csv_phases.specs.States as spec;
ghost use Rattle.subscription_states.specs.Offers.{IsOffered, by_upgrades};

use crate::offered::{Offered, has_upgrade, known_or_read};
use crate::plans::is_pending;
use cluster_objects::{SubSpec, SubState};
use object_store::View;
use olm_base::{Memory, Name};
use std::alloc::Global;
use view_basis::installed_of;

// Whether no version of the package is installed.
fn is_absent(view: &View, package: &Name) -> bool
    ensures { result ≡ is_none (installed view.now «package».now) }
{
    installed_of(view, package).is_none()
}

// The state of a subscription of which one is installed and none is on its way.
fn state_by_upgrades(
    alloc: Global,
    view: &View,
    known: &mut Option<Offered>,
    asked: &SubSpec,
) -> Result<SubState, Memory>
    requires { IfSome known.old (IsOffered view.now) }
    ensures state { IfOk result (λ state. state ≡ by_upgrades view.now asked.now) }
    ensures known { IfSome known.new (IsOffered view.now) }
{
    let offered = known_or_read(alloc, view, known.take())?;
    let has = has_upgrade(alloc, &offered, asked)?;
    *known = Some(offered);
    if has {
        Ok(SubState::UpgradeAvailable)
    } else {
        Ok(SubState::AtLatestKnown)
    }
}

/// The state of a subscription to this. `known` is what upgrades rest on, if a state before needed it.
pub(crate) fn state_of(
    alloc: Global,
    view: &View,
    known: &mut Option<Offered>,
    asked: &SubSpec,
) -> Result<SubState, Memory>
    requires { IfSome known.old (IsOffered view.now) }
    ensures state { IfOk result (λ state. state ≡ spec.state_of view.now asked.now) }
    ensures known { IfSome known.new (IsOffered view.now) }
{
    if is_pending(view, &asked.package) {
        return Ok(SubState::UpgradePending);
    }
    if is_absent(view, &asked.package) {
        return Ok(SubState::Nothing);
    }
    state_by_upgrades(alloc, view, known, asked)
}

/// Whether a subscription that keeps one state is in the other.
pub(crate) fn same_state(kept: SubState, new: SubState) -> bool
    ensures { result ≡ spec.same_state kept new }
{
    match kept {
        SubState::Nothing => matches!(new, SubState::Nothing),
        SubState::UpgradeAvailable => matches!(new, SubState::UpgradeAvailable),
        SubState::UpgradePending => matches!(new, SubState::UpgradePending),
        SubState::AtLatestKnown => matches!(new, SubState::AtLatestKnown),
    }
}
