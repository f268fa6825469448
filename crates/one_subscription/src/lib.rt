//! One catalog and one subscription to a channel of it, as a namespace sees them: what `resolve` decides over.
#![tactic(auto)]

mod asked;

pub use asked::asked_view;
