// Workers.
use controller_rules::Role;
use lease_fence::Term;
use object_store::View;
use olm_base::Name;

/// A worker of a role in a namespace.
#[derive(Debug, Drop)]
pub struct Worker {
    pub role: Role,
    pub namespace: Name,
    /// What it holds of its role's lease.
    pub term: Term,
    /// The view that it took last, if it looked.
    pub view: Option<View>,
}
