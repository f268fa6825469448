// The steps that what is taken makes.
ghost use Rattle.std.specs.Prelude.{◌≡◌, IfOk, map, is_none};
ghost use Rattle.std.specs.List.{list_any, position};
ghost use Rattle.install_plan.specs.Steps as spec;

use cluster_objects::{CsvPhase, CsvStatus, Key, Made, Step, StepState, Taken, is_csv_key};
use object_bodies::{ObjectFault, read_manifest};
use olm_base::{Bytes, Memory, Name};
use std::alloc::Global;

fn csv_for(taken: &Taken, status: CsvStatus) -> Result<Made, Memory>
    ensures { IfOk result (λ made. made ≡ spec.made_for taken.now (Made.Csv status)) }
{
    Ok(Made::Csv(CsvStatus {
        package: Some(taken.package.clone()?),
        version: taken.version.clone()?,
        owned: status.owned,
        needed: status.needed,
        deployments: status.deployments,
        replaces: taken.replaces.clone()?,
        phase: CsvPhase::Nothing,
    }))
}

fn made_for(taken: &Taken, given: Made) -> Result<Made, Memory>
    ensures { IfOk result (λ made. made ≡ spec.made_for taken.now given) }
{
    match given {
        Made::Plain => Ok(Made::Plain),
        Made::Subscription(status) => Ok(Made::Subscription(status)),
        Made::Csv(status) => csv_for(taken, status),
        Made::Deployment(readiness) => Ok(Made::Deployment(readiness)),
    }
}

fn is_stranger(taken: &Taken, key: &Key) -> bool
    ensures { result ≡ spec.is_stranger taken.now key.now }
{
    is_csv_key(key) && key.name != taken.name
}

fn read_step(taken: &Taken, body: &Bytes, key: Key, given: Made) -> Result<Option<Step>, Memory>
    ensures { IfOk result (λ step. step ≡ spec.step_of taken.now body.now (Ok (key, given))) }
{
    if is_stranger(taken, &key) {
        return Ok(None);
    }
    Ok(Some(Step {
        key,
        body: body.clone()?,
        made: made_for(taken, given)?,
        state: StepState::Unknown,
    }))
}

// The step of a manifest, and none where the manifest can't be taken.
fn manifest_step(
    alloc: Global,
    namespace: &Name,
    taken: &Taken,
    body: &Bytes,
) -> Result<Option<Step>, Memory>
    ensures { IfOk result (λ step. step ≡ spec.manifest_step namespace.now taken.now body.now) }
{
    match read_manifest(alloc, body.as_slice(), namespace) {
        Ok((key, given)) => read_step(taken, body, key, given),
        Err(ObjectFault::Memory) => Err(Memory),
        Err(_) => Ok(None),
    }
}

/// The step of each manifest, where it can be taken.
pub(crate) fn read_steps(
    alloc: Global,
    namespace: &Name,
    taken: &Taken,
    bodies: &[&Bytes],
) -> Result<Vec<Option<Step>>, Memory>
    ensures { IfOk result (λ steps. steps.items ≡ map (spec.manifest_step namespace.now taken.now) (map (λ body. body.now) bodies.now)) }
{
    let mut steps = Vec::new(alloc);
    for body in bodies {
        steps.push(manifest_step(alloc, namespace, taken, body)?)?;
    }
    Ok(steps)
}

/// The first manifest that gives no step, as its index.
pub(crate) fn bad_place(read: &[Option<Step>]) -> Option<usize>
    ensures { result ≡ position is_none read.now }
{
    read.iter().position(|found| found.is_none())
}

fn is_csv_step(found: &Option<Step>) -> bool
    ensures { result ≡ spec.is_csv_step found.now }
{
    match found {
        Some(step) => is_csv_key(&step.key),
        None => false,
    }
}

/// Whether a CSV is among the steps.
pub(crate) fn has_csv(read: &[Option<Step>]) -> bool
    ensures { result ≡ list_any spec.is_csv_step read.now }
{
    read.iter().any(|found| is_csv_step(found))
}
