// The keys of leases, and what a view shows at them.
ghost use Rattle.std.specs.Prelude.{◌≡◌, true, IfOk};
ghost use Rattle.std.specs.Option.{option_map, unwrap_or};
ghost use Rattle.olm_base.specs.Names.{is_name};
ghost use Rattle.cluster_history.specs.History.{never_written, slot_in};
ghost use Rattle.cluster_objects.specs.Kinds as kinds;
ghost use Rattle.cluster_objects.specs.Places as spec;

use cluster_objects::{Key, LeaseStatus, Object, Status, Writer, is_lease_key};
use object_store::{Slot, View};
use olm_base::{Memory, Name, NameFault, Text};
use std::alloc::Global;

// A name is valid UTF-8.
fn as_text(name: &Name) -> &str
    ensures { result.now ≡ name.now }
{
    match str::from_utf8(name.as_bytes()) {
        Ok(text) => text,
        Err(_) => unreachable!(),
    }
}

// The name of bytes that are one.
fn given_name(alloc: Global, text: &[u8]) -> Result<Name, Memory>
    requires { is_name text.now ≡ true }
    ensures { IfOk result (λ name. name ≡ text.now) }
{
    match Name::new(alloc, text) {
        Ok(name) => Ok(name),
        Err(NameFault::Memory) => Err(Memory),
        Err(NameFault::Bad) => unreachable!(),
    }
}

fn role_word(alloc: Global, role: Writer) -> Result<Name, Memory>
    ensures { IfOk result (λ word. word ≡ spec.role_word role) }
{
    match role {
        Writer::User => given_name(alloc, b"user"),
        Writer::Resolver => given_name(alloc, b"resolver"),
        Writer::Installer => given_name(alloc, b"installer"),
        Writer::Phases => given_name(alloc, b"phases"),
    }
}

/// The key of a role's lease.
pub(crate) fn lease_key(alloc: Global, namespace: &Name, role: Writer) -> Result<Key, Memory>
    ensures { IfOk result (λ key. key ≡ spec.lease_key namespace.now role) }
{
    Ok(Key {
        group: Text::from_str(alloc, "olmctl.local")?,
        kind: given_name(alloc, b"Lease")?,
        namespace: Text::from_str(alloc, as_text(namespace))?,
        name: role_word(alloc, role)?,
    })
}

/// The object of a slot, if there is one.
pub(crate) fn object_of(there: Option<&Slot>) -> Option<&Object>
    ensures { option_map (λ object. object.now) result ≡ (unwrap_or (option_map (λ there. there.now) there.entry) never_written).object }
{
    match there {
        Some(there) => there.object.as_ref(),
        None => None,
    }
}

/// The version of a slot, or 0 if there is none.
pub(crate) fn version_of(there: Option<&Slot>) -> u64
    ensures { result ≡ (unwrap_or (option_map (λ there. there.now) there.entry) never_written).version }
{
    match there {
        Some(there) => there.version,
        None => 0,
    }
}

fn as_lease(object: Option<&Object>) -> Option<LeaseStatus>
    ensures { result ≡ kinds.as_lease (option_map (λ object. object.now) object.entry) }
{
    match &object?.status {
        Status::Lease(lease) => Some(*lease),
        _ => None,
    }
}

/// The lease at a key, if the object there counts as one.
pub(crate) fn lease_at(key: &Key, object: Option<&Object>) -> Option<LeaseStatus>
    ensures { result ≡ kinds.lease_at key.now (option_map (λ object. object.now) object.entry) }
{
    if is_lease_key(key) {
        as_lease(object)
    } else {
        None
    }
}

/// The lease that a view shows at a key, if it shows one.
pub(crate) fn lease_in(view: &View, key: &Key) -> Option<LeaseStatus>
    ensures { result ≡ kinds.lease_at key.now (slot_in view.now.slots key.now).object }
{
    lease_at(key, object_of(view.slot(key)))
}
