//! Ranges of versions, as bundles and channel entries write them, and which versions they hold for.
//!
//! A text such as `>=1.0.0 <2.0.0 || 3.x` is read once, by `Range::parse`, and asked of many versions, by
//! `Range::holds`. Versions compare by the precedence of Semantic Versioning 2.0.0 alone: a pre-release is a
//! version like any other, and build text doesn't count.
#![tactic(auto)]

mod condition;
mod fault;
mod laws;
mod parsing;
mod range;
mod words;

pub use crate::fault::RangeFault;
pub use crate::laws::{joined_law, plain_law, precedence_law, turns_law, version_law};
pub use crate::range::Range;
