//! What comes of any event of a user: those that need no folder, and the one that gives a catalog source the catalog
//! that lies in a folder.
//!
//! What a `catalog` event asks for stands in `specs/Catalogs.antt`, and what each event does in `specs/Events.antt`.
#![tactic(auto)]

mod catalogs;
mod events;
mod laws;
mod valid;
mod words;

pub use catalogs::catalog;
pub use events::{is_users, user_event};
pub use laws::{asks_one_thing, catalogs_are_valid};
