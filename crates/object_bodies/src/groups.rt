// What is set for a whole namespace: its upgrade strategy and its operator group.
ghost use Rattle.std.specs.Prelude.{◌≡◌, IfOk};
ghost use Rattle.serde_json.specs.View.{view};
ghost use Rattle.olm_base.specs.Outcome.{Gives};
ghost use Rattle.json_fields.specs.Faults.{is_free};
ghost use Rattle.object_bodies.specs.Statuses as spec;

use crate::fields::{check_absent, forward_at, opt_fields_at};
use cluster_objects::{GroupStatus, Status, StrategyStatus};
use json_fields::{Fault, Names, Reader, opt_list_at};
use name_tables::NameSet;
use olm_base::{FieldKind, Many, Memory, Name};
use serde_json::Value;
use std::alloc::Global;

/// The reader of a strategy's `spec`.
struct StrategySpec;

impl Reader for StrategySpec {
    type Out = StrategyStatus;

    ghost use Rattle.object_bodies.specs.Statuses.{strategy_spec};

    ghost reading = { strategy_spec };

    fn read(alloc: Global, value: &Value) -> Result<StrategyStatus, Fault> {
        let forward = forward_at(alloc, value, "upgradeStrategy")?;
        Ok(StrategyStatus { forward })
    }
}

fn strategy(alloc: Global, value: &Value) -> Result<StrategyStatus, Fault>
    ensures { Gives is_free (spec.strategy (view value.now)) result }
{
    opt_fields_at::<StrategySpec>(alloc, value, "spec")
}

/// The status of a new strategy with this body.
pub fn new_strategy(alloc: Global, value: &Value) -> Result<Status, Fault>
    ensures { Gives is_free (spec.new_strategy (view value.now)) result }
{
    let found = strategy(alloc, value)?;
    Ok(Status::Strategy(found))
}

// Each name once, where it is first.
fn each_once(alloc: Global, names: &[Name]) -> Result<Many<Name>, Memory>
    ensures { IfOk result (λ once. once ≡ spec.each_once names.now) }
{
    let mut seen = NameSet::new(alloc);
    let mut once = Vec::new(alloc);
    for name in names {
        let is_new = seen.add(name)?;
        if is_new {
            once.push(name.clone()?)?;
        }
    }
    Ok(Many::from_vec(once))
}

fn targets_of(alloc: Global, names: &[Name]) -> Result<Option<Many<Name>>, Memory>
    ensures { IfOk result (λ targets. targets ≡ spec.targets_of names.now) }
{
    if names.is_empty() {
        return Ok(None);
    }
    Ok(Some(each_once(alloc, names)?))
}

/// The reader of a group's `spec`.
struct GroupSpec;

impl Reader for GroupSpec {
    type Out = GroupStatus;

    ghost use Rattle.object_bodies.specs.Statuses.{group_spec};

    ghost reading = { group_spec };

    fn read(alloc: Global, value: &Value) -> Result<GroupStatus, Fault> {
        let names = opt_list_at::<Names>(alloc, value, "targetNamespaces")?;
        check_absent(alloc, value, "selector")?;
        match targets_of(alloc, names.as_slice()) {
            Ok(targets) => Ok(GroupStatus { targets }),
            Err(Memory) => Err(Fault::here(alloc, FieldKind::Memory)),
        }
    }
}

fn group(alloc: Global, value: &Value) -> Result<GroupStatus, Fault>
    ensures { Gives is_free (spec.group (view value.now)) result }
{
    opt_fields_at::<GroupSpec>(alloc, value, "spec")
}

/// The status of a new operator group with this body.
pub fn new_group(alloc: Global, value: &Value) -> Result<Status, Fault>
    ensures { Gives is_free (spec.new_group (view value.now)) result }
{
    let found = group(alloc, value)?;
    Ok(Status::Group(found))
}
