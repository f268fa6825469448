//! The spelling of writes and bases as bytes, both ways: the payloads of a cluster's file.
//!
//! How each value is spelled is said in `specs/`: the parts and the ways to join them in `specs/Form.antt`, and the
//! fields and variants of each type, in the order of their declaration, in the file of its name. A form says which
//! bytes spell a value, which values have a spelling, and what is read at the front of bytes. By the laws each of these
//! values has one spelling, only that is read as it, and it is read again whatever follows it.
//!
//! Reading trusts no length and no count: bytes are copied only where they are there, and a list takes room for an item
//! once that item was read.
#![tactic(auto)]

mod basic;
mod groups;
mod joined;
mod keys;
mod laws;
mod objects;
mod payload;
mod plans;
mod resolutions;
mod slots;
mod statuses;
mod stored;

pub use laws::{lists_end_by_the_bytes, parts_have_one_spelling, payloads_have_one_spelling};
pub use payload::{read_base, read_payload, write_base, write_payload};
