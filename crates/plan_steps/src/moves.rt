// What comes next for a plan.
ghost use Rattle.std.specs.Prelude.{◌≡◌};
ghost use Rattle.std.specs.List.{list_any};
ghost use Rattle.lawful_history.specs.Installing as spec;
ghost use Rattle.plan_steps.specs.Shown.{IsOneOf, move_shown};

use cluster_objects::{PlanPhase, PlanStatus, Step, StepState};

/// What comes next for a plan. A step stands beside its index from 0.
#[derive(Clone, Copy)]
pub(crate) enum Move<'a> {
    Rest,
    Begin,
    Finish,
    Fail,
    Aim {
        index: usize,
        step: &'a Step,
    },
    Land {
        index: usize,
        step: &'a Step,
        version: u64,
    },
}

fn is_overtaken(step: &Step) -> bool
    ensures { result ≡ spec.is_overtaken step.now }
{
    matches!(step.state, StepState::Overtaken)
}

fn has_overtaken(steps: &[Step]) -> bool
    ensures { result ≡ list_any spec.is_overtaken steps.now }
{
    steps.iter().any(|step| is_overtaken(step))
}

// The move for the first step that is neither Created nor Present.
fn next_step(steps: &[Step]) -> Move<'_>
    ensures shown { move_shown result ≡ spec.next_step 0 steps.now }
    ensures one { IsOneOf steps.now result }
{
    for (index, step) in steps.iter().enumerate() {
        match step.state {
            StepState::Unknown => return Move::Aim { index, step },
            StepState::Aimed { version } => {
                return Move::Land {
                    index,
                    step,
                    version,
                };
            }
            StepState::Created | StepState::Present => {}
            StepState::Overtaken => return Move::Fail,
        }
    }
    Move::Finish
}

pub(crate) fn next_move(plan: &PlanStatus) -> Move<'_>
    ensures shown { move_shown result ≡ spec.next_move plan.now }
    ensures one { IsOneOf plan.now.steps result }
{
    match plan.phase {
        PlanPhase::Planning => Move::Begin,
        PlanPhase::RequiresApproval if plan.approved => Move::Begin,
        PlanPhase::Installing if has_overtaken(plan.steps.as_slice()) => Move::Fail,
        PlanPhase::Installing => next_step(plan.steps.as_slice()),
        PlanPhase::Nothing
        | PlanPhase::RequiresApproval
        | PlanPhase::Complete
        | PlanPhase::Failed => Move::Rest,
    }
}
