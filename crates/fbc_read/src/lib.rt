//! Catalogs, read from the blobs of a text.
//!
//! What each blob gives, and which fault comes first with which path, stands in `specs`: `Constraints.antt`,
//! `Properties.antt` and `Blobs.antt` have a definition for each object, over the forms of fields in `json_fields`,
//! and `Catalogs.antt` says what all blobs give together. docs/catalog-blobs.md has the same in tables. A folder's
//! files are put together to one text first: `Bodies.antt` says which, in which order, and which are refused.
#![tactic(auto)]

mod additions;
mod bodies;
mod constraints;
mod laws;
mod lengths;
mod properties;
mod reading;
mod schemas;

pub use bodies::{BodyFault, INPUT_LIMIT, catalog_body};
pub use laws::{constraint_law, folder_law, reading_law};
pub use reading::{ReadFault, read_catalog};
