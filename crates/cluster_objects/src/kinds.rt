// Which kind a key is of, and when an object counts as one of its kind.
ghost use Rattle.std.specs.Prelude.{◌≡◌, IfOk};
ghost use Rattle.std.specs.Option.{option_map};
ghost use Rattle.cluster_objects.specs.Keys.{same_text};
ghost use Rattle.cluster_objects.specs.Kinds as spec;

use crate::{Key, Made, Status};
use olm_base::Memory;

fn is_same(a: &[u8], b: &[u8]) -> bool
    ensures { result ≡ same_text a.now b.now }
{
    a == b
}

/// Whether the key is of this group and kind.
pub fn has_kind(group: &[u8], kind: &[u8], key: &Key) -> bool
    ensures { result ≡ spec.has_kind group.now kind.now key.now }
{
    is_same(key.group.as_slice(), group) && is_same(key.kind.as_bytes(), kind)
}

/// Whether a CatalogSource may stand at the key.
pub fn is_catalog_key(key: &Key) -> bool
    ensures { result ≡ spec.is_catalog_key key.now }
{
    has_kind(b"operators.coreos.com", b"CatalogSource", key)
}

/// Whether a Subscription may stand at the key.
pub fn is_subscription_key(key: &Key) -> bool
    ensures { result ≡ spec.is_subscription_key key.now }
{
    has_kind(b"operators.coreos.com", b"Subscription", key)
}

/// Whether a ClusterServiceVersion may stand at the key.
pub fn is_csv_key(key: &Key) -> bool
    ensures { result ≡ spec.is_csv_key key.now }
{
    has_kind(b"operators.coreos.com", b"ClusterServiceVersion", key)
}

/// Whether an InstallPlan may stand at the key.
pub fn is_plan_key(key: &Key) -> bool
    ensures { result ≡ spec.is_plan_key key.now }
{
    has_kind(b"operators.coreos.com", b"InstallPlan", key)
}

/// Whether a Deployment may stand at the key.
pub fn is_deployment_key(key: &Key) -> bool
    ensures { result ≡ spec.is_deployment_key key.now }
{
    has_kind(b"apps", b"Deployment", key)
}

/// Whether a CustomResourceDefinition may stand at the key.
pub fn is_crd_key(key: &Key) -> bool
    ensures { result ≡ spec.is_crd_key key.now }
{
    has_kind(b"apiextensions.k8s.io", b"CustomResourceDefinition", key)
}

/// Whether a Resolution may stand at the key.
pub fn is_resolution_key(key: &Key) -> bool
    ensures { result ≡ spec.is_resolution_key key.now }
{
    has_kind(b"olmctl.local", b"Resolution", key)
}

/// Whether an upgrade strategy may stand at the key.
pub fn is_strategy_key(key: &Key) -> bool
    ensures { result ≡ spec.is_strategy_key key.now }
{
    has_kind(b"olmctl.local", b"Strategy", key)
}

/// Whether an OperatorGroup may stand at the key.
pub fn is_group_key(key: &Key) -> bool
    ensures { result ≡ spec.is_group_key key.now }
{
    has_kind(b"operators.coreos.com", b"OperatorGroup", key)
}

/// Whether claims may stand at the key.
pub fn is_claims_key(key: &Key) -> bool
    ensures { result ≡ spec.is_claims_key key.now }
{
    has_kind(b"olmctl.local", b"Claims", key)
}

/// Whether a lease may stand at the key.
pub fn is_lease_key(key: &Key) -> bool
    ensures { result ≡ spec.is_lease_key key.now }
{
    has_kind(b"olmctl.local", b"Lease", key)
}

/// The status of the object that a step makes.
pub fn status_of(made: &Made) -> Result<Status, Memory>
    ensures { IfOk result (λ status. status ≡ spec.status_of made.now) }
{
    Ok(match made {
        Made::Plain => Status::Plain,
        Made::Subscription(status) => Status::Subscription(status.clone()?),
        Made::Csv(status) => Status::Csv(status.clone()?),
        Made::Deployment(readiness) => Status::Deployment(*readiness),
    })
}
