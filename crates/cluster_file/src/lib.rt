//! What a cluster's file stands for, and the bytes that a write adds to it.
//!
//! `specs/Files.antt` says which history the bytes of a file stand for, or where they are damaged, and
//! `specs/Writing.antt` which bytes hold a list of writes. The laws tie the two together.
#![tactic(auto)]

mod laws;
mod records;

pub use laws::{damage_is_at_a_gate, files_stand_for_histories, gates_decide, reading_is_writing};
pub use records::{next_record, record_piece};
