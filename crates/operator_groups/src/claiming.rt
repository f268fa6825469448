// What comes of a claim.
ghost use Rattle.std.specs.Prelude.{◌≡◌, ◌∷◌, IfOk, Some};
ghost use Rattle.std.specs.List.{find, list_any};
ghost use Rattle.std.specs.Option.{option_copied};
ghost use Rattle.cluster_objects.specs.Keys.{same_text};
ghost use Rattle.operator_groups.specs.Claiming as spec;

use cluster_objects::{Claim, ClaimsStatus};
use olm_base::{Gvk, Many, Memory, Name};
use std::alloc::Global;

/// What comes of a claim.
#[derive(Debug, PartialEq, Eq, Drop)]
pub enum Claimed {
    /// It is there.
    Held,
    /// This namespace has claimed the kind for one of the targets.
    Taken { by: Name },
    /// Nobody has, and these are the claims with it.
    Next(ClaimsStatus),
}

fn is_among(name: &Name, names: &[Name]) -> bool
    ensures { result ≡ list_any (same_text name.now) names.now }
{
    names.iter().any(|other| name == other)
}

// Whether a name is this namespace or among these targets.
fn reaches(name: &Name, namespace: &Name, targets: &[Name]) -> bool
    ensures { result ≡ list_any (same_text name.now) (namespace.now ∷ targets.now) }
{
    name == namespace || is_among(name, targets)
}

fn some_reaches(names: &[Name], namespace: &Name, targets: &[Name]) -> bool
    ensures { result ≡ spec.meet (Some names.now) (Some (namespace.now ∷ targets.now)) }
{
    names.iter().any(|name| reaches(name, namespace, targets))
}

// Whether a name is in both, the namespaces counted in.
fn share_name(namespace: &Name, targets: &[Name], other: &Name, others: &[Name]) -> bool
    ensures { result
        ≡ spec.meet (Some (namespace.now ∷ targets.now)) (Some (other.now ∷ others.now)) }
{
    reaches(namespace, other, others) || some_reaches(targets, other, others)
}

fn share_target(claim: &Claim, other: &Claim) -> bool
    ensures { result ≡ spec.share_target claim.now other.now }
{
    match (&claim.targets, &other.targets) {
        (Some(targets), Some(others)) => share_name(
            &claim.namespace,
            targets.as_slice(),
            &other.namespace,
            others.as_slice(),
        ),
        _ => true,
    }
}

fn is_against(claim: &Claim, other: &Claim) -> bool
    ensures { result ≡ spec.is_against claim.now other.now }
{
    other.kind == claim.kind && other.namespace != claim.namespace && share_target(other, claim)
}

fn same_targets(targets: &Option<Many<Name>>, others: &Option<Many<Name>>) -> bool
    ensures { result ≡ spec.same_targets targets.now others.now }
{
    match (targets, others) {
        (None, None) => true,
        (Some(targets), Some(others)) => targets == others,
        _ => false,
    }
}

fn is_older(claim: &Claim, entry: &Claim) -> bool
    ensures { result ≡ spec.is_older claim.now entry.now }
{
    entry.kind == claim.kind && entry.namespace == claim.namespace
}

fn is_claim(claim: &Claim, entry: &Claim) -> bool
    ensures { result ≡ spec.is_claim claim.now entry.now }
{
    is_older(claim, entry) && same_targets(&entry.targets, &claim.targets)
}

fn is_there(entries: &[Claim], claim: &Claim) -> bool
    ensures { result ≡ list_any (spec.is_claim claim.now) entries.now }
{
    entries.iter().any(|entry| is_claim(claim, entry))
}

fn first_against<'a>(entries: &'a [Claim], claim: &Claim) -> Option<&'a Claim>
    ensures { option_copied result ≡ find (spec.is_against claim.now) entries.now }
{
    entries.iter().find(|entry| is_against(claim, entry))
}

fn without_older(alloc: Global, entries: &[Claim], claim: &Claim) -> Result<Vec<Claim>, Memory>
    ensures { IfOk result (λ kept. kept.items ≡ spec.without_older entries.now claim.now) }
{
    let mut kept = Vec::new(alloc);
    'entries: for entry in entries {
        if !is_older(claim, entry) {
            kept.push(entry.clone()?)?;
        }
    }
    Ok(kept)
}

fn with_claim(alloc: Global, entries: &[Claim], claim: Claim) -> Result<ClaimsStatus, Memory>
    ensures { IfOk result (λ next. next.entries ≡ spec.with_claim entries.now claim) }
{
    let mut kept = without_older(alloc, entries, &claim)?;
    kept.push(claim)?;
    Ok(ClaimsStatus {
        entries: Many::from_vec(kept),
    })
}

fn claim_against(alloc: Global, entries: &[Claim], claim: Claim) -> Result<Claimed, Memory>
    ensures { IfOk result
        (λ claimed. claimed
        ≡ spec.claim_against entries.now claim (find (spec.is_against claim) entries.now)) }
{
    match first_against(entries, &claim) {
        Some(other) => {
            let by = other.namespace.clone()?;
            Ok(Claimed::Taken { by })
        }
        None => Ok(Claimed::Next(with_claim(alloc, entries, claim)?)),
    }
}

fn claim_by(alloc: Global, entries: &[Claim], wanted: Claim) -> Result<Claimed, Memory>
    ensures { IfOk result (λ claimed. claimed ≡ spec.claim entries.now wanted) }
{
    if is_there(entries, &wanted) {
        Ok(Claimed::Held)
    } else {
        claim_against(alloc, entries, wanted)
    }
}

fn wanted_of(kind: &Gvk, namespace: &Name, targets: &Option<Many<Name>>) -> Result<Claim, Memory>
    ensures { IfOk result
        (λ wanted. wanted
        ≡ record { kind = kind.now; namespace = namespace.now; targets = targets.now }) }
{
    Ok(Claim {
        kind: kind.clone()?,
        namespace: namespace.clone()?,
        targets: targets.clone()?,
    })
}

/// What comes of a claim of a kind by a namespace for its targets, None for all.
/// Takes memory in the measure of the claims.
pub fn claim(
    alloc: Global,
    claims: &ClaimsStatus,
    kind: &Gvk,
    namespace: &Name,
    targets: &Option<Many<Name>>,
) -> Result<Claimed, Memory>
    ensures { IfOk result (λ claimed.
        claimed ≡ spec.claim claims.now.entries
        (record { kind = kind.now; namespace = namespace.now; targets = targets.now })) }
{
    let wanted = wanted_of(kind, namespace, targets)?;
    claim_by(alloc, claims.entries.as_slice(), wanted)
}
