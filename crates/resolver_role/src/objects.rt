// The objects that the resolver writes.
ghost use Rattle.std.specs.Prelude.{◌≡◌, IfOk, option_copied};
ghost use Rattle.controller_rules.specs.Resolving as spec;

use cluster_objects::{Object, ResolutionStatus, Status};
use object_store::View;
use olm_base::{Bytes, Memory};
use std::alloc::Global;

/// A new object of this status.
pub(crate) fn new_object(alloc: Global, view: &View, status: Status) -> Object
    ensures { result ≡ spec.new_object view.now status }
{
    Object {
        body: Bytes::from_vec(Vec::new(alloc)),
        status,
        owner: None,
        stamp: None,
        seen: view.length(),
    }
}

// The object that is there, with a new resolution.
fn next_object(view: &View, there: &Object, new: ResolutionStatus) -> Result<Object, Memory>
    ensures { IfOk result (λ object. object
        ≡ record there.now { status = Status.Resolution new; stamp = None; seen = view.now.length }) }
{
    Ok(Object {
        body: there.body.clone()?,
        status: Status::Resolution(new),
        owner: there.owner.clone()?,
        stamp: None,
        seen: view.length(),
    })
}

/// The object of a new resolution, by the resolution and the object that are there.
pub(crate) fn resolution_object(
    alloc: Global,
    view: &View,
    found: Option<&ResolutionStatus>,
    there: Option<&Object>,
    new: ResolutionStatus,
) -> Result<Object, Memory>
    ensures { IfOk result (λ object. object
        ≡ spec.resolution_object view.now (option_copied found.entry) (option_copied there.entry)
        new) }
{
    match (found, there) {
        (Some(_), Some(object)) => next_object(view, object, new),
        (None, _) | (Some(_), None) => Ok(new_object(alloc, view, Status::Resolution(new))),
    }
}
