// Laws of leases. They hold for every history, lawful or not.
ghost use Rattle.std.specs.Prelude.{◌≡◌, ◌≢◌, ◌≤◌, ◌<◌, ◌⊎◌, ◌^◌, Bool, true, List, [], ℕ, Some};
ghost use Rattle.olm_base.specs.Names.{is_name};
ghost use Rattle.cluster_objects.specs.Kinds.{is_lease_key};
ghost use Rattle.cluster_objects.specs.Places.{lease_key};
ghost use Rattle.cluster_objects.specs.Stamps.{stamps_of};
ghost use Rattle.cluster_objects.specs.declared.groups.LeaseStatus.{LeaseStatus};
ghost use Rattle.cluster_objects.specs.declared.objects.Object.{Object};
ghost use Rattle.cluster_objects.specs.declared.objects.Status.TheVariants as status;
ghost use Rattle.cluster_objects.specs.declared.objects.Write.{Write};
ghost use Rattle.cluster_objects.specs.declared.objects.Writer.{Writer};
ghost use Rattle.cluster_objects.specs.declared.objects.Writer.TheVariants as writer;
ghost use Rattle.cluster_history.specs.History.{History, After, position, slot};
ghost use Rattle.lease_fence.specs.Answers.{Answers};
ghost use Rattle.lease_fence.specs.Grants.{IsGrant, granted, granted_at};
ghost use Rattle.lease_fence.specs.Leases.{lease_of, term};
ghost use Rattle.lease_fence.specs.Order.{IsNextLease, IsRenewalOf, LeaseLater};
ghost use Rattle.lease_fence.specs.declared.terms.Grant.TheVariants as grant;
ghost use Rattle.lease_fence.specs.declared.terms.Granted.{Granted};
ghost use Rattle.lease_fence.specs.declared.terms.Term.{Term};
ghost use Rattle.lease_fence.specs.declared.terms.Term.TheVariants as terms;

/// Whatever `grant` returns, the history stays or has the write of one grant more.
pub fn grants_write_leases()
    ensures { (fits : History → Write → Bool) (limit : ℕ) (h : History) (namespace : List ℕ) (role : Writer) (holder : ℕ) (held : Term) (moment : ℕ) (keep : ℕ) (new : History) (answer : Granted)
        → is_name namespace ≡ true → role ≢ writer.User → holder < 2 ^ 32 → moment ≤ 2 ^ 62 → 1 ≤ keep → keep ≤ 86400
        → Answers fits limit h (lease_key namespace role) (granted_at h namespace role holder held moment keep) new answer → (new ≡ h) ⊎ ((w : Write) × IsGrant h w × (new ≡ After w h)) }
{}

/// A grant is a user's write of a lease's key that expects the key's version. It has no stamp, an empty body, and the
/// history's length as `seen`, and it is no removal.
pub fn grants_are_users_writes()
    ensures by { (h : History) (w : Write) → IsGrant h w → w.by ≡ writer.User }
    ensures version { (h : History) (w : Write) → IsGrant h w → w.expect ≡ (slot h w.key).version }
    ensures kind { (h : History) (w : Write) → IsGrant h w → is_lease_key w.key ≡ true }
    ensures stamp { (h : History) (w : Write) → IsGrant h w → stamps_of w.object ≡ [] }
    ensures object { (h : History) (w : Write) (given : IsGrant h w) → (object : Object) × (w.object ≡ Some object) × (object.seen ≡ position h) × (object.body ≡ []) × (object.status ≡ status.Lease given.lease) }
{}

/// After a grant its lease is at its key, and it is the next one there. Every other lease stays.
pub fn grants_are_in_order()
    ensures stands { (h : History) (w : Write) (given : IsGrant h w) → lease_of (After w h) given.namespace given.role ≡ Some given.lease }
    ensures next { (h : History) (w : Write) (given : IsGrant h w) → IsNextLease (lease_of h given.namespace given.role) given.lease }
    ensures others { (h : History) (w : Write) (namespace : List ℕ) (role : Writer) → IsGrant h w → w.key ≢ lease_key namespace role → lease_of (After w h) namespace role ≡ lease_of h namespace role }
    ensures each { (h : History) (w : Write) (namespace : List ℕ) (role : Writer) → IsGrant h w → LeaseLater (lease_of h namespace role) (lease_of (After w h) namespace role) }
{}

/// No grant lowers a term.
pub fn terms_never_fall()
    ensures { (h : History) (w : Write) (namespace : List ℕ) (role : Writer) → IsGrant h w → term h namespace role ≤ term (After w h) namespace role }
{}

/// A lease whose time isn't over is granted only to its holder, and only if that holds its term, which stays. A
/// renewal is granted only to a holder that holds the term, and a new term only if the time is over.
pub fn holders_are_left_alone()
    ensures kept { (h : History) (w : Write) (given : IsGrant h w) (old : LeaseStatus) → lease_of h given.namespace given.role ≡ Some old → given.moment < old.until
        → (given.holder ≡ old.holder) × (given.held ≡ terms.Held old.term) × IsRenewalOf old given.lease }
    ensures renewal { (old : LeaseStatus) (holder : ℕ) (held : Term) (moment : ℕ) (keep : ℕ) (lease : LeaseStatus) → granted (Some old) holder held moment keep ≡ grant.Renewal lease
        → (lease.holder ≡ holder) × (held ≡ terms.Held lease.term) × IsRenewalOf old lease }
    ensures new { (old : LeaseStatus) (holder : ℕ) (held : Term) (moment : ℕ) (keep : ℕ) (lease : LeaseStatus) → granted (Some old) holder held moment keep ≡ grant.NewTerm lease → old.until ≤ moment }
{}
