// What is set for a whole namespace: its upgrade strategy, its group, and what the groups of all namespaces claim.
use olm_base::{Gvk, Many, Name};
use std::alloc::AllocError;

/// The status of a namespace's upgrade strategy.
#[derive(Clone, Copy, Debug, PartialEq, Eq)]
pub struct StrategyStatus {
    /// Whether an upgrade may leave a version that failed.
    pub forward: bool,
}

/// The status of an OperatorGroup.
#[derive(Debug, PartialEq, Eq, Drop)]
pub struct GroupStatus {
    /// The namespaces that the operators of the group's namespace act in, each once; None for all.
    pub targets: Option<Many<Name>>,
}

/// That the operators of a namespace alone own a kind in the namespaces that they act in.
#[derive(Debug, PartialEq, Eq, Drop)]
pub struct Claim {
    pub kind: Gvk,
    /// The operators' own namespace.
    pub namespace: Name,
    /// The namespaces that they act in; None for all.
    pub targets: Option<Many<Name>>,
}

/// The status of the one object that holds the claims of all namespaces.
#[derive(Debug, PartialEq, Eq, Drop)]
pub struct ClaimsStatus {
    /// The latest last.
    pub entries: Many<Claim>,
}

/// The status of the lease of one role in one namespace.
#[derive(Clone, Copy, Debug, PartialEq, Eq)]
pub struct LeaseStatus {
    /// The latest term; the first is 1.
    pub term: u64,
    /// The number of the worker that holds it.
    pub holder: u32,
    /// The moment from which another worker may get the next term, in seconds.
    pub until: u64,
}

impl Clone for GroupStatus {
    ghost use Rattle.std.specs.Prelude.{◌≡◌};

    ghost is_clone = { λ status copy. copy ≡ status };

    fn clone(&self) -> Result<GroupStatus, AllocError> {
        Ok(GroupStatus {
            targets: self.targets.clone()?,
        })
    }
}

impl Clone for Claim {
    ghost use Rattle.std.specs.Prelude.{◌≡◌};

    ghost is_clone = { λ claim copy. copy ≡ claim };

    fn clone(&self) -> Result<Claim, AllocError> {
        Ok(Claim {
            kind: self.kind.clone()?,
            namespace: self.namespace.clone()?,
            targets: self.targets.clone()?,
        })
    }
}

impl Clone for ClaimsStatus {
    ghost use Rattle.std.specs.Prelude.{◌≡◌};

    ghost is_clone = { λ status copy. copy ≡ status };

    fn clone(&self) -> Result<ClaimsStatus, AllocError> {
        Ok(ClaimsStatus {
            entries: self.entries.clone()?,
        })
    }
}
