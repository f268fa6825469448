//! Fields of JSON objects, read with the paths of their faults.
//!
//! A reading gives a value, or the first [`Fault`] and the path to it from the value that was to be read. What each
//! form of field gives stands in `specs/Values.antt`, and how paths grow in `specs/Faults.antt`. Values are lent
//! where they have parts to be read, so that nothing is copied but what is kept.
#![tactic(auto)]

mod fault;
mod items;
mod laws;
mod values;

pub use fault::{Fault, below_item, below_key};
pub use items::{
    Bodies, Names, Reader, lend_list, lend_opt_list, list_at, opt_list_at, read_items,
};
pub use laws::base64_law;
pub use values::{
    bytes_at, bytes_item, check_fields, group_at, gvk, lend_fields, lend_present, lend_text_at,
    name_at, name_item, opt_name_at, opt_text_at, text_at,
};
