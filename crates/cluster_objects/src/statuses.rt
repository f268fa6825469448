// The statuses of catalogs, subscriptions, CSVs and deployments, and what a plan's step makes.
use olm_base::{Many, Name, Text};
use std::alloc::AllocError;

/// The status of a catalog, whose body is the catalog itself.
#[derive(Clone, Copy, Debug, PartialEq, Eq)]
pub struct CatalogStatus {
    /// Catalogs of a higher priority come first.
    pub priority: i64,
}

/// What a subscription asks for.
#[derive(Debug, PartialEq, Eq, Drop)]
pub struct SubSpec {
    pub package: Name,
    pub channel: Option<Name>,
    /// The catalog's name.
    pub source: Name,
    /// The catalog's namespace.
    pub source_namespace: Name,
    /// The version to begin with, by its name.
    pub starting: Option<Name>,
    /// Whether a plan for it waits for an approval.
    pub manual: bool,
}

/// The state of a subscription.
#[derive(Clone, Copy, Debug, PartialEq, Eq)]
pub enum SubState {
    /// None as yet.
    Nothing,
    UpgradeAvailable,
    UpgradePending,
    AtLatestKnown,
}

/// The status of a subscription.
#[derive(Debug, PartialEq, Eq, Drop)]
pub struct SubscriptionStatus {
    pub spec: SubSpec,
    pub state: SubState,
}

/// A custom resource definition that a CSV owns or needs, by its name, the version and the kind.
#[derive(Debug, PartialEq, Eq, Drop)]
pub struct Crd {
    pub name: Name,
    pub version: Name,
    pub kind: Name,
}

/// The phase of a CSV.
#[derive(Clone, Copy, Debug, PartialEq, Eq)]
pub enum CsvPhase {
    /// None as yet.
    Nothing,
    Pending,
    InstallReady,
    Installing,
    Succeeded,
    Failed,
    Replacing,
    Deleting,
}

/// The status of a CSV, one installed version of an operator.
#[derive(Debug, PartialEq, Eq, Drop)]
pub struct CsvStatus {
    /// The package that it was taken from, if a plan made it.
    pub package: Option<Name>,
    pub version: Text,
    pub owned: Many<Crd>,
    pub needed: Many<Crd>,
    pub deployments: Many<Name>,
    /// The CSV that it replaces.
    pub replaces: Option<Name>,
    pub phase: CsvPhase,
}

/// How far a deployment is.
#[derive(Clone, Copy, Debug, PartialEq, Eq)]
pub enum Readiness {
    Waiting,
    Ready,
    Failed,
}

/// The status that a plan's step makes, which is the status of the same name.
#[derive(Debug, PartialEq, Eq, Drop)]
pub enum Made {
    Plain,
    Subscription(SubscriptionStatus),
    Csv(CsvStatus),
    Deployment(Readiness),
}

impl Clone for SubSpec {
    ghost use Rattle.std.specs.Prelude.{◌≡◌};

    ghost is_clone = { λ spec copy. copy ≡ spec };

    fn clone(&self) -> Result<SubSpec, AllocError> {
        Ok(SubSpec {
            package: self.package.clone()?,
            channel: self.channel.clone()?,
            source: self.source.clone()?,
            source_namespace: self.source_namespace.clone()?,
            starting: self.starting.clone()?,
            manual: self.manual,
        })
    }
}

impl Clone for SubscriptionStatus {
    ghost use Rattle.std.specs.Prelude.{◌≡◌};

    ghost is_clone = { λ status copy. copy ≡ status };

    fn clone(&self) -> Result<SubscriptionStatus, AllocError> {
        Ok(SubscriptionStatus {
            spec: self.spec.clone()?,
            state: self.state,
        })
    }
}

impl Clone for Crd {
    ghost use Rattle.std.specs.Prelude.{◌≡◌};

    ghost is_clone = { λ crd copy. copy ≡ crd };

    fn clone(&self) -> Result<Crd, AllocError> {
        Ok(Crd {
            name: self.name.clone()?,
            version: self.version.clone()?,
            kind: self.kind.clone()?,
        })
    }
}

impl Clone for CsvStatus {
    ghost use Rattle.std.specs.Prelude.{◌≡◌};

    ghost is_clone = { λ status copy. copy ≡ status };

    fn clone(&self) -> Result<CsvStatus, AllocError> {
        Ok(CsvStatus {
            package: self.package.clone()?,
            version: self.version.clone()?,
            owned: self.owned.clone()?,
            needed: self.needed.clone()?,
            deployments: self.deployments.clone()?,
            replaces: self.replaces.clone()?,
            phase: self.phase,
        })
    }
}

impl Clone for Made {
    ghost use Rattle.std.specs.Prelude.{◌≡◌};

    ghost is_clone = { λ made copy. copy ≡ made };

    fn clone(&self) -> Result<Made, AllocError> {
        Ok(match self {
            Made::Plain => Made::Plain,
            Made::Subscription(status) => Made::Subscription(status.clone()?),
            Made::Csv(status) => Made::Csv(status.clone()?),
            Made::Deployment(readiness) => Made::Deployment(*readiness),
        })
    }
}
