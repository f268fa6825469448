//! What a bundle asks for and what it offers, and which offers meet what is asked.
//!
//! A bundle of a catalog asks for its requirements, and offers its package, its version and the kinds that it
//! provides. An installed version makes an offer too. A requirement is a test of one offer.
#![tactic(auto)]

mod asked;
mod laws;
mod offer;
mod passing;
mod requirement;

pub use asked::requirements;
pub use laws::{constraint_law, kinds_law, order_law, passes_law, read_law};
pub use offer::{Offer, offer_of};
pub use passing::passes;
pub use requirement::Requirement;
