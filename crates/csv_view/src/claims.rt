// The groups of a CSV's namespace, and its claims.
ghost use Rattle.std.specs.Prelude.{◌≡◌, IfOk, map, not, option_copied};
ghost use Rattle.std.specs.List.{find, list_all};
ghost use Rattle.cluster_objects.specs.Kinds.{as_claims};
ghost use Rattle.csv_phases.specs.Conditions as spec;

use crate::csvs::Csv;
use cluster_objects::{ClaimsStatus, Crd, Object, Status};
use object_store::View;
use olm_base::{Many, Memory, Name};
use operator_groups::{Acts, Claimed, acts_of, claim, supports};
use std::alloc::Global;
use view_basis::kind_of;
use view_slots::{claims_key, object_at};

/// Whether the group of the view's namespace fits the CSV.
pub fn group_fits(alloc: Global, view: &View, csv: &Csv) -> Result<bool, Memory>
    ensures { IfOk result (λ fits. fits ≡ spec.group_fits view.now csv.now) }
{
    let acts = acts_of(alloc, view)?;
    supports(alloc, csv.object.body.as_slice(), view.namespace(), &acts)
}

// The claims of an object of them, whatever the key that it stands at.
fn as_claims<'a>(there: Option<&'a Object>) -> Option<&'a ClaimsStatus>
    ensures { option_copied result ≡ as_claims (option_copied there.entry) }
{
    match there {
        None => None,
        Some(object) => match &object.status {
            Status::Claims(claims) => Some(claims),
            _ => None,
        },
    }
}

/// The claims of all namespaces. Where there is no object of claims, nobody claims anything.
pub fn claims_of_view(alloc: Global, view: &View) -> Result<ClaimsStatus, Memory>
    ensures { IfOk result (λ claims. claims.entries ≡ spec.claims view.now) }
{
    let key = claims_key(alloc)?;
    match as_claims(object_at(view, &key)) {
        Some(claims) => Ok(claims.clone()?),
        None => Ok(ClaimsStatus {
            entries: Many::new(alloc),
        }),
    }
}

// What comes of claiming the kind of an owned definition for these targets, where these are the view's claims.
fn claim_of(
    alloc: Global,
    view: &View,
    claims: &ClaimsStatus,
    targets: &Option<Many<Name>>,
    crd: &Crd,
) -> Result<Claimed, Memory>
    requires { claims.now.entries ≡ spec.claims view.now }
    ensures { IfOk result (λ claimed. claimed ≡ spec.claim_of view.now targets.now crd.now) }
{
    let kind = kind_of(alloc, crd)?;
    claim(alloc, claims, &kind, view.namespace(), targets)
}

fn is_held(claimed: &Claimed) -> bool
    ensures { result ≡ spec.is_held claimed.now }
{
    match claimed {
        Claimed::Held => true,
        Claimed::Taken { .. } => false,
        Claimed::Next(_) => false,
    }
}

// What comes of the first claim of these definitions for these targets that isn't held.
fn unheld_for(
    alloc: Global,
    view: &View,
    targets: &Option<Many<Name>>,
    owned: &[Crd],
) -> Result<Option<Claimed>, Memory>
    ensures { IfOk result (λ claimed. claimed
        ≡ find (λ claimed. not (spec.is_held claimed)) (map (spec.claim_of view.now targets.now) owned.now)) }
{
    let claims = claims_of_view(alloc, view)?;
    'definitions: for crd in owned {
        let claimed = claim_of(alloc, view, &claims, targets, crd)?;
        if !is_held(&claimed) {
            return Ok(Some(claimed));
        }
    }
    Ok(None)
}

// Whether the claims of these definitions for these targets are held.
#[tactic(auto, using(crate::proofs::Walks::all_pass))]
fn are_held_for(
    alloc: Global,
    view: &View,
    targets: &Option<Many<Name>>,
    owned: &[Crd],
) -> Result<bool, Memory>
    ensures { IfOk result (λ held. held
        ≡ list_all spec.is_held (map (spec.claim_of view.now targets.now) owned.now)) }
{
    match unheld_for(alloc, view, targets, owned)? {
        Some(_) => Ok(false),
        None => Ok(true),
    }
}

/// Whether the claim of each kind that the CSV owns is held for the group's targets. Without a group none is asked for.
pub fn claims_are_held(alloc: Global, view: &View, csv: &Csv) -> Result<bool, Memory>
    ensures { IfOk result (λ held. held ≡ spec.claims_are_held view.now csv.now) }
{
    let owned = csv.status.owned.as_slice();
    match acts_of(alloc, view)? {
        Acts::Ungrouped => Ok(true),
        Acts::Several => Ok(false),
        Acts::In(targets) => are_held_for(alloc, view, &Some(targets), owned),
        Acts::Everywhere => are_held_for(alloc, view, &None, owned),
    }
}

/// What comes of the first claim of the CSV that isn't held, if there is one and the group has targets.
pub fn first_unheld(alloc: Global, view: &View, csv: &Csv) -> Result<Option<Claimed>, Memory>
    ensures { IfOk result (λ claimed. claimed ≡ spec.first_unheld view.now csv.now) }
{
    let owned = csv.status.owned.as_slice();
    match acts_of(alloc, view)? {
        Acts::Ungrouped => Ok(None),
        Acts::Several => Ok(None),
        Acts::In(targets) => unheld_for(alloc, view, &Some(targets), owned),
        Acts::Everywhere => unheld_for(alloc, view, &None, owned),
    }
}
