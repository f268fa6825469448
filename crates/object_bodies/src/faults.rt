// What is wrong with a body.
ghost use Rattle.std.specs.Prelude.{◌≡◌};
ghost use Rattle.object_bodies.specs.Faults as spec;

use json_fields::Fault;
use olm_base::{FieldKind, Name, Text};
use thiserror::Error;

/// Why a body gives no object. The first cause counts, in the order of the variants.
#[derive(Debug, Drop, PartialEq, Error)]
pub enum ObjectFault {
    /// The body has so many bytes, more than the limit.
    #[error("too-large {bytes}")]
    TooLarge { bytes: u64 },
    /// It is not one JSON object, or there is more than blanks around one.
    #[error("not-json")]
    NotJson,
    /// `kind` or `apiVersion` is missing or bad.
    #[error("no-kind")]
    NoKind,
    /// `metadata` or `metadata.name` is missing or bad.
    #[error("no-name")]
    NoName,
    /// An object of this kind isn't made from a body.
    #[error("forbidden {kind}", kind = .kind.as_bytes().escape_ascii())]
    Forbidden { kind: Name },
    /// The field at this path is missing or bad.
    #[error("bad-field {path}", path = .path.as_str())]
    BadField { path: Text },
    /// Memory ran out.
    #[error("out of memory")]
    Memory,
}

/// The fault for that of a field where another word tells of it; want of memory stays what it is.
pub fn unless_memory(fault: &Fault, other: ObjectFault) -> ObjectFault
    ensures { result ≡ spec.unless_memory fault.now other }
{
    match fault.kind {
        FieldKind::Memory => ObjectFault::Memory,
        _ => other,
    }
}

/// The fault that tells of a field by its path.
pub fn bad_field(fault: Fault) -> ObjectFault
    ensures { result ≡ spec.unless_memory fault (spec.bad_field fault) }
{
    match fault.kind {
        FieldKind::Memory => ObjectFault::Memory,
        _ => ObjectFault::BadField { path: fault.path },
    }
}
