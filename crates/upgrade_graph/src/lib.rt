//! The order of a channel's entries, and which of them an installed bundle can be upgraded to.
//!
//! The order is the chain that follows `replaces` from the channel's head, and then the other entries by their
//! versions, the highest first, and of equal ones by their names. An upgrade replaces the installed bundle, skips it,
//! or has its version in its `skipRange`, and it stands before it where that is in the channel. The definitions are
//! `specs/Order.antt` and `specs/Upgrades.antt`, and what follows of them for every valid catalog `specs/Laws.antt`.
#![tactic(auto)]

mod chain;
mod channel_order;
mod installed;
mod laws;
mod placed;
mod ranking;
mod tables;
mod versions;

pub use chain::{main_chain, skips, takes_over};
pub use channel_order::order;
pub use installed::upgrades;
pub use laws::{
    heads_come_first, orders_list_all, others_are_sorted, replacing_comes_first,
    upgrades_never_come_back, upgrades_stand_before,
};
pub use placed::{ChannelOrder, entries_in_order};
pub use tables::bundles_by_name;
