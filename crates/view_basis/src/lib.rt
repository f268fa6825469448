//! What a resolution of a namespace rests on, read from a view: its subscriptions, its tips and its visible catalogs.
//!
//! Each of these is said in `specs/` as a filter of the view's slots: which catalog a body is in `Bodies.antt`, the
//! visible catalogs and their order in `Visible.antt`, which CSVs may be upgraded in `Forward.antt`, the tips and the
//! installed one of a package in `Tips.antt`, and the subscriptions and all of it together in `Basis.antt`. `Laws.antt` says what they have.
#![tactic(auto)]

mod basis;
mod bodies;
mod forward;
mod laws;
mod tips;
mod visible;

pub use basis::{basis_of, subscriptions_of};
pub use bodies::catalog_of_body;
pub use forward::is_forward;
pub use laws::{
    catalogs_are_in_order, installed_is_first, names_are_in_order, valid_breaks_nothing,
};
pub use tips::{csv_in, installed_of, is_replaced, kind_of, tip_offer, tip_version, tips_of};
pub use visible::{Visible, catalogs_of};
