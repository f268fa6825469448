// The write of a new resolution.
ghost use Rattle.std.specs.Prelude.{◌≡◌, false, IfOk, option_copied};
ghost use Rattle.cluster_objects.specs.Places.{resolution_key};
ghost use Rattle.view_basis.specs.Basis as bases;
ghost use Rattle.controller_rules.specs.Resolving as spec;

use crate::deciding::{Resolved, resolve};
use crate::objects::resolution_object;
use crate::standing::current;
use cluster_objects::{Basis, Key, ResolutionStatus, Write, Writer};
use object_store::View;
use olm_base::Memory;
use std::alloc::Global;
use view_slots::{object_at, version_at};

/// How many lemmas the first decision may take.
const FIRST_BUDGET: u32 = 10_000;

fn next_number(found: Option<&ResolutionStatus>) -> u64
    ensures { result ≡ spec.next_number (option_copied found.entry) }
{
    match found {
        Some(old) if old.number < u64::MAX => old.number + 1,
        Some(old) => old.number,
        None => 1,
    }
}

fn next_budget(found: Option<&ResolutionStatus>) -> u32
    ensures { result ≡ spec.next_budget (option_copied found.entry) }
{
    match found {
        Some(old) => old.budget,
        None => FIRST_BUDGET,
    }
}

// The resolution that follows the one that is there.
fn next_resolution(
    alloc: Global,
    view: &View,
    found: Option<&ResolutionStatus>,
    basis: Basis,
) -> Result<ResolutionStatus, Memory>
    requires found { option_copied found ≡ spec.current view.now }
    requires basis { basis ≡ bases.basis view.now }
    ensures { IfOk result (λ new. spec.IsNext view.now new) }
{
    let budget = next_budget(found);
    let Resolved {
        outcome,
        certificate,
    } = resolve(alloc, view, budget)?;
    Ok(ResolutionStatus {
        number: next_number(found),
        budget,
        again: false,
        basis,
        outcome,
        certificate,
    })
}

fn resolution_write(
    alloc: Global,
    view: &View,
    key: Key,
    new: ResolutionStatus,
) -> Result<Write, Memory>
    requires { key ≡ resolution_key view.now.namespace }
    ensures { IfOk result (λ write. write ≡ spec.resolution_write view.now new) }
{
    let found = current(view, &key);
    let there = object_at(view, &key);
    Ok(Write {
        by: Writer::Resolver,
        expect: version_at(view, &key),
        object: Some(resolution_object(alloc, view, found, there, new)?),
        key,
    })
}

/// The write of a decision where one is due. The key is the resolution's, and the basis is the view's.
#[tactic(auto, using(crate::proofs::Writing::decided_write))]
pub(crate) fn decision_write(
    alloc: Global,
    view: &View,
    key: Key,
    basis: Basis,
) -> Result<Write, Memory>
    requires key { key ≡ resolution_key view.now.namespace }
    requires basis { basis ≡ bases.basis view.now }
    requires awake { spec.is_resting view.now ≡ false }
    requires due { spec.IsDue view.now (spec.current view.now) }
    ensures { IfOk result (λ write. spec.IsResolversWrite view.now write) }
{
    let new = next_resolution(alloc, view, current(view, &key), basis)?;
    resolution_write(alloc, view, key, new)
}
