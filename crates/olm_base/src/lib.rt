//! The values that everything stands on: lists, names, texts, bytes, kinds and the want of memory.
//!
//! Contracts see a [`Many`] as the list of its items, and a [`Name`], [`Text`] or [`Bytes`] as the list of its
//! bytes, so definitions speak of lists alone. The words by which contracts give exact answers stand in
//! `specs/Outcome.antt`, and what a name is in `specs/Names.antt`.
#![tactic(auto)]

mod bytes;
mod fields;
mod gvk;
mod many;
mod memory;
mod name;
mod text;

pub use bytes::Bytes;
pub use fields::{FieldKind, list_field, name_field, opt_text, text_field};
pub use gvk::Gvk;
pub use many::Many;
pub use memory::Memory;
pub use name::{
    GROUP_LIMIT, NAME_LIMIT, Name, NameFault, OUTSIDE_NAME_LIMIT, is_group, is_name,
    is_outside_name,
};
pub use text::Text;

#[cfg(test)]
mod field_tests;
#[cfg(test)]
mod tests;
