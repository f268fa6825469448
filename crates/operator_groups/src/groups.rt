// How the operators of a namespace act.
ghost use Rattle.std.specs.Prelude.{◌≡◌, IfOk, map};
ghost use Rattle.std.specs.Option.{option_copied};
ghost use Rattle.operator_groups.specs.Acts as spec;

use cluster_objects::{GroupStatus, Key, Status, is_group_key};
use object_store::{Shared, View};
use olm_base::{Many, Memory, Name};
use std::alloc::Global;

/// In which namespaces the operators of a namespace act.
#[derive(Debug, PartialEq, Eq, Drop)]
pub enum Acts {
    /// No OperatorGroup is there, so nothing is said.
    Ungrouped,
    /// Two or more are there.
    Several,
    /// The targets of the only one.
    In(Many<Name>),
    /// The only one is for all namespaces.
    Everywhere,
}

// The group of the slot, if one of this namespace stands there.
fn group_in<'a>(namespace: &Name, entry: &'a (Key, Shared)) -> Option<&'a GroupStatus>
    ensures { option_copied result ≡ spec.group_in namespace.now entry.now }
{
    if entry.0.namespace.as_slice() != namespace.as_bytes() || !is_group_key(&entry.0) {
        return None;
    }
    match &entry.1.slot().object {
        None => None,
        Some(object) => match &object.status {
            Status::Group(group) => Some(group),
            _ => None,
        },
    }
}

fn groups_of(alloc: Global, view: &View) -> Result<Vec<&GroupStatus>, Memory>
    ensures { IfOk result
        (λ groups. map (λ group. group.now) groups.items ≡ spec.groups view.now) }
{
    let mut groups = Vec::new(alloc);
    'slots: for entry in view.slots() {
        if let Some(group) = group_in(view.namespace(), entry) {
            groups.push(group)?;
        }
    }
    Ok(groups)
}

fn acts_in(group: &GroupStatus) -> Result<Acts, Memory>
    ensures { IfOk result (λ acts. acts ≡ spec.acts_in group.now.targets) }
{
    match &group.targets {
        None => Ok(Acts::Everywhere),
        Some(targets) => Ok(Acts::In(targets.clone()?)),
    }
}

/// How the operators of the view's namespace act, by the OperatorGroups that stand there.
/// Takes memory in the measure of the groups and of the only one's targets.
pub fn acts_of(alloc: Global, view: &View) -> Result<Acts, Memory>
    ensures { IfOk result (λ acts. acts ≡ spec.acts view.now) }
{
    let groups = groups_of(alloc, view)?;
    match groups.as_slice() {
        [] => Ok(Acts::Ungrouped),
        [group] => acts_in(group),
        _ => Ok(Acts::Several),
    }
}
