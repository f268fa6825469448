// The cases of a request for a lease.
ghost use Rattle.std.specs.Prelude.{◌≡◌, ◌≤◌, ◌^◌};
ghost use Rattle.lease_fence.specs.Grants as spec;
ghost use Rattle.lease_fence.specs.Leases as leases;

use crate::terms::{Grant, Term};
use cluster_objects::LeaseStatus;

/// The term of a lease, or 0 if there is none.
pub(crate) fn term_in(there: Option<LeaseStatus>) -> u64
    ensures { result ≡ leases.term_in there }
{
    match there {
        Some(lease) => lease.term,
        None => 0,
    }
}

fn next_term(there: Option<LeaseStatus>) -> u64
    ensures { result ≡ spec.next_term there }
{
    match there {
        Some(lease) if lease.term < u64::MAX => lease.term + 1,
        Some(lease) => lease.term,
        None => 1,
    }
}

fn holds(held: Term, term: u64) -> bool
    ensures { result ≡ spec.holds held term }
{
    match held {
        Term::Held(held) => held == term,
        Term::Free | Term::Lost => false,
    }
}

fn newly(there: Option<LeaseStatus>, holder: u32, now: u64, keep: u64) -> LeaseStatus
    requires now { now ≤ 2 ^ 62 }
    requires keep { keep ≤ 86400 }
    ensures { result ≡ spec.newly there holder now keep }
{
    LeaseStatus {
        term: next_term(there),
        holder,
        until: now + keep,
    }
}

fn renewed(there: LeaseStatus, now: u64, keep: u64) -> LeaseStatus
    requires now { now ≤ 2 ^ 62 }
    requires keep { keep ≤ 86400 }
    ensures { result ≡ spec.renewed there now keep }
{
    LeaseStatus {
        term: there.term,
        holder: there.holder,
        until: there.until.max(now + keep),
    }
}

/// What a worker is granted, by the lease that is there.
pub(crate) fn granted(
    there: Option<LeaseStatus>,
    holder: u32,
    held: Term,
    now: u64,
    keep: u64,
) -> Grant
    requires now { now ≤ 2 ^ 62 }
    requires keep { keep ≤ 86400 }
    ensures { result ≡ spec.granted there holder held now keep }
{
    let Some(lease) = there else {
        return Grant::NewTerm(newly(None, holder, now, keep));
    };
    if lease.until <= now {
        Grant::NewTerm(newly(there, holder, now, keep))
    } else if holds(held, lease.term) && lease.holder == holder {
        Grant::Renewal(renewed(lease, now, keep))
    } else {
        Grant::Held { until: lease.until }
    }
}
