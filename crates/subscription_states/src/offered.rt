// What the upgrades of a namespace's subscriptions rest on.
ghost use Rattle.std.specs.Prelude.{◌≡◌, not, IfOk, IfSome};
ghost use Rattle.csv_phases.specs.States.{is_empty};
ghost use Rattle.problem_build.specs.Asking.{upgrades_from};
ghost use Rattle.subscription_states.specs.Offers.{IsOffered};

use cluster_objects::{SubSpec, Tip};
use object_store::View;
use olm_base::{Many, Memory};
use problem_build::upgrades_from;
use std::alloc::Global;
use view_basis::{Visible, catalogs_of, tips_of};

/// What upgrades rest on: the catalogs that a namespace sees, and its tips.
#[derive(Debug, Drop)]
pub(crate) struct Offered {
    pub(crate) catalogs: Many<Visible>,
    pub(crate) tips: Many<Tip>,
}

fn offered_in(alloc: Global, view: &View) -> Result<Offered, Memory>
    ensures { IfOk result (λ offered. IsOffered view.now offered) }
{
    Ok(Offered {
        catalogs: catalogs_of(alloc, view)?,
        tips: tips_of(alloc, view)?,
    })
}

/// What is known already, or else what the view shows.
pub(crate) fn known_or_read(
    alloc: Global,
    view: &View,
    known: Option<Offered>,
) -> Result<Offered, Memory>
    requires { IfSome known (IsOffered view.now) }
    ensures { IfOk result (λ offered. IsOffered view.now offered) }
{
    match known {
        Some(offered) => Ok(offered),
        None => offered_in(alloc, view),
    }
}

/// Whether the installed one of the subscription's package has an upgrade.
pub(crate) fn has_upgrade(alloc: Global, offered: &Offered, asked: &SubSpec) -> Result<bool, Memory>
    ensures { IfOk result (λ has. has
        ≡ not (is_empty (upgrades_from offered.now.catalogs offered.now.tips asked.now))) }
{
    let upgrades = upgrades_from(
        alloc,
        offered.catalogs.as_slice(),
        offered.tips.as_slice(),
        asked,
    )?;
    Ok(!upgrades.as_slice().is_empty())
}
