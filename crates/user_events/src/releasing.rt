// Claims that are given up.
ghost use Rattle.std.specs.Prelude.{◌≡◌, not, IfOk, true};
ghost use Rattle.std.specs.List.{filter, list_any};
ghost use Rattle.std.specs.Option.{option_map};
ghost use Rattle.olm_base.specs.Outcome.{Gives};
ghost use Rattle.user_events.specs.Reasons.{is_free};
ghost use Rattle.user_events.specs.Wishes as spec;

use crate::kept::claims_at;
use crate::objects::with_status;
use crate::refusals::{Refusal, refused};
use cluster_objects::{Claim, ClaimsStatus, Key, Object, Status};
use olm_base::{Many, Memory, Name};
use std::alloc::Global;

fn is_claim_of(namespace: &Name, claim: &Claim) -> bool
    ensures { result ≡ spec.is_claim_of namespace.now claim.now }
{
    claim.namespace.as_bytes() == namespace.as_bytes()
}

fn has_claims_of(namespace: &Name, claims: &ClaimsStatus) -> bool
    ensures { result ≡ list_any (spec.is_claim_of namespace.now) claims.now.entries }
{
    let entries = claims.entries.as_slice();
    entries.iter().any(|claim| is_claim_of(namespace, claim))
}

fn without_claims_of(
    alloc: Global,
    namespace: &Name,
    claims: &[Claim],
) -> Result<Many<Claim>, Memory>
    ensures { IfOk result (λ others. others ≡ filter (λ claim. not (spec.is_claim_of namespace.now claim)) claims.now) }
{
    let mut others = Vec::new(alloc);
    for claim in claims {
        if !is_claim_of(namespace, claim) {
            others.push(claim.clone()?)?;
        }
    }
    Ok(Many::from_vec(others))
}

fn status_without(alloc: Global, namespace: &Name, claims: &ClaimsStatus) -> Result<Status, Memory>
    ensures { IfOk result (λ status. status ≡ Status.Claims (spec.without_claims_of namespace.now claims.now)) }
{
    let entries = without_claims_of(alloc, namespace, claims.entries.as_slice())?;
    Ok(Status::Claims(ClaimsStatus { entries }))
}

fn released_claims(
    alloc: Global,
    namespace: &Name,
    object: &Object,
    seen: u64,
    claims: Option<&ClaimsStatus>,
) -> Result<Option<Object>, Refusal>
    ensures { Gives is_free (spec.released_claims namespace.now object.now seen (option_map (λ claims. claims.now) claims.entry)) result }
{
    let Some(claims) = claims else {
        return Err(refused(alloc, "absent"));
    };
    if !has_claims_of(namespace, claims) {
        return Err(refused(alloc, "absent"));
    }
    let status = status_without(alloc, namespace, claims)?;
    Ok(Some(with_status(object, status, seen)?))
}

/// The claims that stand there, without those of a namespace.
pub(crate) fn released(
    alloc: Global,
    namespace: &Name,
    key: &Key,
    old: Option<&Object>,
    seen: u64,
) -> Result<Option<Object>, Refusal>
    ensures { Gives is_free (spec.released namespace.now key.now (option_map (λ object. object.now) old.entry) seen) result }
{
    match old {
        Some(object) => released_claims(alloc, namespace, object, seen, claims_at(key, object)),
        None => Err(refused(alloc, "absent")),
    }
}
