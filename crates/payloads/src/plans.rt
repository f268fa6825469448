// Install plans and their steps.
ghost use Rattle.payloads.specs.Plans.{plan_fault_form, plan_phase_form, step_state_form, step_form, plan_form};

use crate::basic::read_plain_at;
use crate::stored::{ReadFault, Stored};
use cluster_objects::{Key, Made, PlanFault, PlanPhase, PlanStatus, Step, StepState};
use olm_base::{Bytes, Many, Memory, Name};
use std::alloc::Global;

impl Stored for PlanFault {
    ghost form = { plan_fault_form };

    #[tactic(auto, unfolding(crate::specs::Plans::plan_fault_form))]
    fn write_to(&self, out: &mut Vec<u8>) -> Result<(), Memory> {
        match self {
            PlanFault::BadManifest { bundle, index } => {
                out.push(0)?;
                bundle.write_to(out)?;
                index.write_to(out)
            }
            PlanFault::NoManifest { bundle } => {
                out.push(1)?;
                bundle.write_to(out)
            }
            PlanFault::SameKey { first, second } => {
                out.push(2)?;
                first.write_to(out)?;
                second.write_to(out)
            }
        }
    }

    #[tactic(auto, unfolding(crate::specs::Plans::plan_fault_form))]
    fn read_from(alloc: Global, bytes: &[u8]) -> Result<(PlanFault, &[u8]), ReadFault> {
        match bytes {
            [0, rest @ ..] => {
                let ((bundle, index), rest) = <(Name, u64)>::read_from(alloc, rest)?;
                Ok((PlanFault::BadManifest { bundle, index }, rest))
            }
            [1, rest @ ..] => {
                let (bundle, rest) = Name::read_from(alloc, rest)?;
                Ok((PlanFault::NoManifest { bundle }, rest))
            }
            [2, rest @ ..] => {
                let ((first, second), rest) = <(u64, u64)>::read_from(alloc, rest)?;
                Ok((PlanFault::SameKey { first, second }, rest))
            }
            _ => Err(ReadFault::NoSpelling),
        }
    }
}

impl Stored for PlanPhase {
    ghost form = { plan_phase_form };

    #[tactic(auto, unfolding(crate::specs::Plans::plan_phase_form))]
    fn write_to(&self, out: &mut Vec<u8>) -> Result<(), Memory> {
        out.push(*self as u8)?;
        Ok(())
    }

    #[tactic(auto, unfolding(crate::specs::Plans::plan_phase_form))]
    fn read_from(_alloc: Global, bytes: &[u8]) -> Result<(PlanPhase, &[u8]), ReadFault> {
        read_plain_at(
            &[
                PlanPhase::Nothing,
                PlanPhase::Planning,
                PlanPhase::RequiresApproval,
                PlanPhase::Installing,
                PlanPhase::Complete,
                PlanPhase::Failed,
            ],
            bytes,
        )
    }
}

impl Stored for StepState {
    ghost form = { step_state_form };

    #[tactic(auto, unfolding(crate::specs::Plans::step_state_form))]
    fn write_to(&self, out: &mut Vec<u8>) -> Result<(), Memory> {
        match self {
            StepState::Unknown => {
                out.push(0)?;
                Ok(())
            }
            StepState::Aimed { version } => {
                out.push(1)?;
                version.write_to(out)
            }
            StepState::Created => {
                out.push(2)?;
                Ok(())
            }
            StepState::Present => {
                out.push(3)?;
                Ok(())
            }
            StepState::Overtaken => {
                out.push(4)?;
                Ok(())
            }
        }
    }

    #[tactic(auto, unfolding(crate::specs::Plans::step_state_form))]
    fn read_from(alloc: Global, bytes: &[u8]) -> Result<(StepState, &[u8]), ReadFault> {
        match bytes {
            [0, rest @ ..] => Ok((StepState::Unknown, rest)),
            [1, rest @ ..] => {
                let (version, rest) = u64::read_from(alloc, rest)?;
                Ok((StepState::Aimed { version }, rest))
            }
            [2, rest @ ..] => Ok((StepState::Created, rest)),
            [3, rest @ ..] => Ok((StepState::Present, rest)),
            [4, rest @ ..] => Ok((StepState::Overtaken, rest)),
            _ => Err(ReadFault::NoSpelling),
        }
    }
}

impl Stored for Step {
    ghost form = { step_form };

    #[tactic(auto, unfolding(crate::specs::Plans::step_form))]
    fn write_to(&self, out: &mut Vec<u8>) -> Result<(), Memory> {
        self.key.write_to(out)?;
        self.body.write_to(out)?;
        self.made.write_to(out)?;
        self.state.write_to(out)
    }

    #[tactic(auto, unfolding(crate::specs::Plans::step_form))]
    fn read_from(alloc: Global, bytes: &[u8]) -> Result<(Step, &[u8]), ReadFault> {
        let ((key, (body, (made, state))), rest) = <(Key, (Bytes, (Made, StepState)))>::read_from(
            alloc, bytes,
        )?;
        Ok((
            Step {
                key,
                body,
                made,
                state,
            },
            rest,
        ))
    }
}

impl Stored for PlanStatus {
    ghost form = { plan_form };

    #[tactic(auto, unfolding(crate::specs::Plans::plan_form))]
    fn write_to(&self, out: &mut Vec<u8>) -> Result<(), Memory> {
        self.number.write_to(out)?;
        self.manual.write_to(out)?;
        self.approved.write_to(out)?;
        self.phase.write_to(out)?;
        self.cause.write_to(out)?;
        self.steps.write_to(out)
    }

    #[tactic(auto, unfolding(crate::specs::Plans::plan_form))]
    fn read_from(alloc: Global, bytes: &[u8]) -> Result<(PlanStatus, &[u8]), ReadFault> {
        let ((number, (manual, (approved, (phase, (cause, steps))))), rest) = <(
            u64,
            (bool, (bool, (PlanPhase, (Option<PlanFault>, Many<Step>)))),
        )>::read_from(alloc, bytes)?;
        Ok((
            PlanStatus {
                number,
                manual,
                approved,
                phase,
                cause,
                steps,
            },
            rest,
        ))
    }
}
