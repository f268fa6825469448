// The write of a plan's next move.
ghost use Rattle.std.specs.Prelude.{◌≡◌, IfOk, Some, option_copied, slice_get};
ghost use Rattle.lawful_history.specs.Installing as spec;
ghost use Rattle.plan_steps.specs.Shown.{move_write, plan_write, slot_shown, write_of};

use crate::moves::{Move, next_move};
use crate::there::{aim, is_stamped, object_of, version_of};
use cluster_history::Slot;
use cluster_objects::{
    Key, Object, PlanPhase, PlanStatus, Stamp, Status, Step, StepState, Write, Writer, status_of,
};
use object_store::View;
use olm_base::{Many, Memory, Name};

/// A plan that stands at a key in this version, with the object that it is the status of.
#[derive(Clone, Copy)]
pub(crate) struct Standing<'a> {
    pub(crate) key: &'a Key,
    pub(crate) version: u64,
    pub(crate) object: &'a Object,
    pub(crate) plan: &'a PlanStatus,
}

fn with_phase(plan: &PlanStatus, phase: PlanPhase) -> Result<PlanStatus, Memory>
    ensures { IfOk result (λ changed. changed ≡ spec.with_phase plan.now phase) }
{
    let mut changed = plan.clone()?;
    changed.phase = phase;
    Ok(changed)
}

fn with_step(
    plan: &PlanStatus,
    index: usize,
    step: &Step,
    state: StepState,
) -> Result<PlanStatus, Memory>
    requires { slice_get plan.now.steps index ≡ Some step.now }
    ensures { IfOk result (λ changed. changed ≡ spec.with_step plan.now index step.now state) }
{
    let mut steps = plan.steps.clone()?.into_vec();
    steps[index].state = state;
    Ok(PlanStatus {
        number: plan.number,
        manual: plan.manual,
        approved: plan.approved,
        phase: plan.phase,
        cause: plan.cause.clone()?,
        steps: Many::from_vec(steps),
    })
}

// The plan's object again, with this status.
fn plan_write(view: &View, standing: &Standing, plan: PlanStatus) -> Result<Write, Memory>
    ensures { IfOk result (λ write. write ≡ plan_write view.now standing.now plan) }
{
    Ok(Write {
        by: Writer::Installer,
        expect: standing.version,
        key: standing.key.clone()?,
        object: Some(Object {
            body: standing.object.body.clone()?,
            status: Status::Plan(plan),
            owner: standing.object.owner.clone()?,
            stamp: None,
            seen: view.length(),
        }),
    })
}

fn phase_write(view: &View, standing: &Standing, phase: PlanPhase) -> Result<Write, Memory>
    ensures { IfOk result (λ write. write
        ≡ plan_write view.now standing.now (spec.with_phase standing.now.plan.now phase)) }
{
    plan_write(view, standing, with_phase(standing.plan, phase)?)
}

fn state_write(
    view: &View,
    standing: &Standing,
    index: usize,
    step: &Step,
    state: StepState,
) -> Result<Write, Memory>
    requires { slice_get standing.now.plan.now.steps index ≡ Some step.now }
    ensures { IfOk result (λ write. write
        ≡ plan_write view.now standing.now (spec.with_step standing.now.plan.now index step.now state)) }
{
    plan_write(
        view,
        standing,
        with_step(standing.plan, index, step, state)?,
    )
}

fn owner_of(there: Option<&Slot>) -> Result<Option<Name>, Memory>
    ensures { IfOk result (λ owner. owner
        ≡ spec.owner_of (slot_shown (option_copied there.entry)).object) }
{
    match object_of(there) {
        Some(object) => Ok(object.owner.clone()?),
        None => Ok(None),
    }
}

// The step's object, with the owner of what it replaces, and the step's stamp.
fn step_write(view: &View, there: Option<&Slot>, stamp: Stamp, step: &Step) -> Result<Write, Memory>
    requires { stamp.namespace ≡ view.now.namespace }
    ensures { IfOk result (λ write. write
        ≡ spec.step_write view.now step.now.key (slot_shown (option_copied there.entry))
        stamp.plan stamp.step step.now) }
{
    Ok(Write {
        by: Writer::Installer,
        expect: version_of(there),
        key: step.key.clone()?,
        object: Some(Object {
            body: step.body.clone()?,
            status: status_of(&step.made)?,
            owner: owner_of(there)?,
            stamp: Some(stamp),
            seen: view.length(),
        }),
    })
}

fn aim_write(view: &View, standing: &Standing, index: usize, step: &Step) -> Result<Write, Memory>
    requires { slice_get standing.now.plan.now.steps index ≡ Some step.now }
    ensures { IfOk result (λ write. Some write
        ≡ move_write view.now standing.now (spec.Aim index step.now)) }
{
    let there = view.slot(&step.key);
    state_write(view, standing, index, step, aim(there, step))
}

fn land_write(
    view: &View,
    standing: &Standing,
    index: usize,
    step: &Step,
    version: u64,
) -> Result<Write, Memory>
    requires { slice_get standing.now.plan.now.steps index ≡ Some step.now }
    ensures { IfOk result (λ write. Some write
        ≡ move_write view.now standing.now (spec.Land index step.now version)) }
{
    let stamp = Stamp {
        namespace: view.namespace().clone()?,
        plan: standing.plan.number,
        step: index as u64,
    };
    let there = view.slot(&step.key);
    if is_stamped(there, &stamp) {
        state_write(view, standing, index, step, StepState::Created)
    } else if version_of(there) == version {
        step_write(view, there, stamp, step)
    } else {
        state_write(view, standing, index, step, StepState::Overtaken)
    }
}

/// The write of the plan's next move, if it has one.
pub(crate) fn write_of(view: &View, standing: &Standing) -> Result<Option<Write>, Memory>
    ensures { IfOk result (λ write. write ≡ write_of view.now standing.now) }
{
    let write = match next_move(standing.plan) {
        Move::Rest => return Ok(None),
        Move::Begin => phase_write(view, standing, PlanPhase::Installing)?,
        Move::Finish => phase_write(view, standing, PlanPhase::Complete)?,
        Move::Fail => phase_write(view, standing, PlanPhase::Failed)?,
        Move::Aim { index, step } => aim_write(view, standing, index, step)?,
        Move::Land {
            index,
            step,
            version,
        } => land_write(view, standing, index, step, version)?,
    };
    Ok(Some(write))
}
