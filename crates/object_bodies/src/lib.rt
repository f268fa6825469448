//! Objects of a cluster, read from their bodies.
//!
//! A body is one JSON object. It gives the key at which its object stands, and what is known of a new object of
//! that kind beside its body. What each field gives, and which fault comes first with which path, stands in
//! `specs`: `Heads.antt` has the key, `Statuses.antt` the fields of each kind, and `Bodies.antt` a whole body, over
//! the forms of fields in `json_fields` and `Fields.antt`. docs/objects.md has the same in tables.
#![tactic(auto)]

mod bodies;
mod csvs;
mod faults;
mod fields;
mod groups;
mod heads;
mod laws;
mod statuses;

pub use bodies::{BODY_LIMIT, read_manifest, read_object};
pub use faults::ObjectFault;
pub use laws::{carried_law, made_law, namespace_law, new_law};
