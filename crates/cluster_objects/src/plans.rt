// Install plans and their steps.
use crate::{Key, Made};
use olm_base::{Bytes, Many, Name};
use std::alloc::AllocError;

/// Why a resolution has no plan that can be carried out.
#[derive(Debug, PartialEq, Eq, Drop)]
pub enum PlanFault {
    /// The manifest of this bundle at this index, from 0, can't be taken.
    BadManifest { bundle: Name, index: u64 },
    /// This bundle has no CSV of its own name.
    NoManifest { bundle: Name },
    /// Two steps, as numbers from 0, have one key and different bodies.
    SameKey { first: u64, second: u64 },
}

/// The phase of a plan.
#[derive(Clone, Copy, Debug, PartialEq, Eq)]
pub enum PlanPhase {
    /// None as yet.
    Nothing,
    Planning,
    RequiresApproval,
    Installing,
    Complete,
    Failed,
}

/// How far a step is.
#[derive(Clone, Copy, Debug, PartialEq, Eq)]
pub enum StepState {
    Unknown,
    /// The step's object is to be written where its key still has this version.
    Aimed { version: u64 },
    /// The step's object was written.
    Created,
    /// What the step wants was there before.
    Present,
    /// Somebody else wrote the key after the step was aimed.
    Overtaken,
}

/// One object that a plan makes.
#[derive(Debug, PartialEq, Eq, Drop)]
pub struct Step {
    pub key: Key,
    pub body: Bytes,
    pub made: Made,
    pub state: StepState,
}

/// The status of an install plan.
#[derive(Debug, PartialEq, Eq, Drop)]
pub struct PlanStatus {
    /// The number of the resolution that it was made for.
    pub number: u64,
    /// Whether it waits for an approval.
    pub manual: bool,
    pub approved: bool,
    pub phase: PlanPhase,
    /// Why it failed at once, if it did.
    pub cause: Option<PlanFault>,
    pub steps: Many<Step>,
}

impl Clone for PlanFault {
    ghost use Rattle.std.specs.Prelude.{◌≡◌};

    ghost is_clone = { λ fault copy. copy ≡ fault };

    fn clone(&self) -> Result<PlanFault, AllocError> {
        Ok(match self {
            PlanFault::BadManifest { bundle, index } => PlanFault::BadManifest {
                bundle: bundle.clone()?,
                index: *index,
            },
            PlanFault::NoManifest { bundle } => PlanFault::NoManifest {
                bundle: bundle.clone()?,
            },
            PlanFault::SameKey { first, second } => PlanFault::SameKey {
                first: *first,
                second: *second,
            },
        })
    }
}

impl Clone for Step {
    ghost use Rattle.std.specs.Prelude.{◌≡◌};

    ghost is_clone = { λ step copy. copy ≡ step };

    fn clone(&self) -> Result<Step, AllocError> {
        Ok(Step {
            key: self.key.clone()?,
            body: self.body.clone()?,
            made: self.made.clone()?,
            state: self.state,
        })
    }
}

impl Clone for PlanStatus {
    ghost use Rattle.std.specs.Prelude.{◌≡◌};

    ghost is_clone = { λ plan copy. copy ≡ plan };

    fn clone(&self) -> Result<PlanStatus, AllocError> {
        Ok(PlanStatus {
            number: self.number,
            manual: self.manual,
            approved: self.approved,
            phase: self.phase,
            cause: self.cause.clone()?,
            steps: self.steps.clone()?,
        })
    }
}
