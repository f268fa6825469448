// The lines of a namespace's objects.
ghost use Rattle.std.specs.Prelude.{◌≡◌, ◌++◌, OnOk, IfOk};
ghost use Rattle.cluster_objects.specs.Keys.{same_text};
ghost use Rattle.cluster_lines.specs.Lines as spec;

use crate::words::status_word;
use cluster_history::Slot;
use cluster_objects::{Key, Object, print_key};
use object_store::View;
use olm_base::{Memory, Name};
use std::alloc::Global;

fn put_object(
    out: &mut Vec<u8>,
    alloc: Global,
    key: &Key,
    version: u64,
    object: &Option<Object>,
) -> Result<(), Memory>
    ensures { OnOk result (out.new.items ≡ out.old.items ++ spec.object_line key.now version object.now) }
{
    let Some(object) = object else {
        return Ok(());
    };
    print_key(key, out)?;
    out.extend_from_slice(b" version ")?;
    let digits = version.to_string(alloc)?;
    out.extend_from_slice(digits.as_bytes())?;
    out.push(b' ')?;
    out.extend_from_slice(status_word(&object.status))?;
    out.push(b'\n')?;
    Ok(())
}

fn is_in(key: &Key, namespace: &Name) -> bool
    ensures { result ≡ same_text key.now.namespace namespace.now }
{
    key.namespace.as_slice() == namespace.as_bytes()
}

fn put_slot(
    out: &mut Vec<u8>,
    alloc: Global,
    namespace: &Name,
    key: &Key,
    slot: &Slot,
) -> Result<(), Memory>
    ensures { OnOk result (out.new.items ≡ out.old.items ++ spec.slot_line namespace.now (key.now, slot.now)) }
{
    if is_in(key, namespace) {
        put_object(out, alloc, key, slot.version, &slot.object)?;
    }
    Ok(())
}

/// A line for each object of the view's namespace, in the order of their keys:
/// `apps/Deployment/default/web version 3 Ready`, for instance.
pub fn show_lines(alloc: Global, view: &View) -> Result<Vec<u8>, Memory>
    ensures { IfOk result (λ lines. lines.items ≡ spec.shown view.now) }
{
    let mut out = Vec::new(alloc);
    'slots: for entry in view.slots() {
        put_slot(&mut out, alloc, view.namespace(), &entry.0, entry.1.slot())?;
    }
    Ok(out)
}
