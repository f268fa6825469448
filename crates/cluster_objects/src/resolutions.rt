// Resolutions: what was chosen for a namespace, and of what.
use crate::SubSpec;
use olm_base::{Bytes, Gvk, Many, Name, Text};
use std::alloc::AllocError;

/// An installed version that no other replaces, as a resolution saw it.
#[derive(Debug, PartialEq, Eq, Drop)]
pub struct Tip {
    pub name: Name,
    pub package: Option<Name>,
    pub version: Text,
    pub kinds: Many<Gvk>,
    /// Whether it may be upgraded.
    pub succeeded: bool,
}

/// A catalog, as a resolution saw it.
#[derive(Debug, PartialEq, Eq, Drop)]
pub struct Seen {
    pub namespace: Name,
    pub name: Name,
    pub priority: i64,
    /// The version of the catalog's key.
    pub version: u64,
}

/// What a resolution rests on.
#[derive(Debug, PartialEq, Eq, Drop)]
pub struct Basis {
    /// By name.
    pub subscriptions: Many<(Name, SubSpec)>,
    /// By name.
    pub tips: Many<Tip>,
    /// By priority, highest first, then namespace, then name.
    pub catalogs: Many<Seen>,
}

/// An entry of a channel that a resolution takes.
#[derive(Debug, PartialEq, Eq, Drop)]
pub struct Taken {
    pub catalog_namespace: Name,
    pub catalog: Name,
    pub package: Name,
    pub channel: Name,
    pub name: Name,
    pub version: Text,
    /// The installed version of the same package, if there is one.
    pub replaces: Option<Name>,
}

/// What a resolution came to.
#[derive(Debug, PartialEq, Eq, Drop)]
pub enum Outcome {
    /// Nothing as yet.
    Nothing,
    /// The first choice, as the numbers picked and the entries taken.
    Chosen { walk: Many<u32>, taken: Many<Taken> },
    /// No choice meets every constraint.
    Refused,
    /// The budget of lemmas was spent.
    Undecided { lemmas: u32 },
    /// The problem is above the limit: it has so many variables, or one of them has so many constraints.
    TooLarge { count: u64 },
}

/// The status of a namespace's resolution.
#[derive(Debug, PartialEq, Eq, Drop)]
pub struct ResolutionStatus {
    pub number: u64,
    /// How many lemmas a decision may take.
    pub budget: u32,
    /// Whether it is to be decided again.
    pub again: bool,
    pub basis: Basis,
    pub outcome: Outcome,
    pub certificate: Bytes,
}

impl Clone for Tip {
    ghost use Rattle.std.specs.Prelude.{◌≡◌};

    ghost is_clone = { λ tip copy. copy ≡ tip };

    fn clone(&self) -> Result<Tip, AllocError> {
        Ok(Tip {
            name: self.name.clone()?,
            package: self.package.clone()?,
            version: self.version.clone()?,
            kinds: self.kinds.clone()?,
            succeeded: self.succeeded,
        })
    }
}

impl Clone for Seen {
    ghost use Rattle.std.specs.Prelude.{◌≡◌};

    ghost is_clone = { λ seen copy. copy ≡ seen };

    fn clone(&self) -> Result<Seen, AllocError> {
        Ok(Seen {
            namespace: self.namespace.clone()?,
            name: self.name.clone()?,
            priority: self.priority,
            version: self.version,
        })
    }
}

impl Clone for Basis {
    ghost use Rattle.std.specs.Prelude.{◌≡◌};

    ghost is_clone = { λ basis copy. copy ≡ basis };

    fn clone(&self) -> Result<Basis, AllocError> {
        Ok(Basis {
            subscriptions: self.subscriptions.clone()?,
            tips: self.tips.clone()?,
            catalogs: self.catalogs.clone()?,
        })
    }
}

impl Clone for Taken {
    ghost use Rattle.std.specs.Prelude.{◌≡◌};

    ghost is_clone = { λ taken copy. copy ≡ taken };

    fn clone(&self) -> Result<Taken, AllocError> {
        Ok(Taken {
            catalog_namespace: self.catalog_namespace.clone()?,
            catalog: self.catalog.clone()?,
            package: self.package.clone()?,
            channel: self.channel.clone()?,
            name: self.name.clone()?,
            version: self.version.clone()?,
            replaces: self.replaces.clone()?,
        })
    }
}

impl Clone for Outcome {
    ghost use Rattle.std.specs.Prelude.{◌≡◌};

    ghost is_clone = { λ outcome copy. copy ≡ outcome };

    fn clone(&self) -> Result<Outcome, AllocError> {
        Ok(match self {
            Outcome::Nothing => Outcome::Nothing,
            Outcome::Chosen { walk, taken } => Outcome::Chosen {
                walk: walk.clone()?,
                taken: taken.clone()?,
            },
            Outcome::Refused => Outcome::Refused,
            Outcome::Undecided { lemmas } => Outcome::Undecided { lemmas: *lemmas },
            Outcome::TooLarge { count } => Outcome::TooLarge { count: *count },
        })
    }
}

impl Clone for ResolutionStatus {
    ghost use Rattle.std.specs.Prelude.{◌≡◌};

    ghost is_clone = { λ status copy. copy ≡ status };

    fn clone(&self) -> Result<ResolutionStatus, AllocError> {
        Ok(ResolutionStatus {
            number: self.number,
            budget: self.budget,
            again: self.again,
            basis: self.basis.clone()?,
            outcome: self.outcome.clone()?,
            certificate: self.certificate.clone()?,
        })
    }
}
