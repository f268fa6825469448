//! What the order and the upgrades have, for every catalog that breaks no rule.

ghost use Rattle.upgrade_graph.specs.Laws.{HeadsComeFirst, OrdersListAll, OthersAreSorted, ReplacingComesFirst, UpgradesNeverComeBack, UpgradesStandBefore};

use fbc_types::{channels_have_chains, entries_are_bundles};
use version_ranges::precedence_law;

/// The order has each entry of the channel once.
pub fn orders_list_all()
    ensures { OrdersListAll }
{
    channels_have_chains();
    entries_are_bundles();
}

/// The order begins with the channel's one head.
pub fn heads_come_first()
    ensures { HeadsComeFirst }
{
    channels_have_chains();
}

/// Of two entries on the head's chain, one of which replaces the other, the replacing one comes first.
pub fn replacing_comes_first()
    ensures { ReplacingComesFirst }
{
    channels_have_chains();
    entries_are_bundles();
}

/// Behind the chain stand the other entries, sorted: the higher version first, and of equal ones the lower name.
pub fn others_are_sorted()
    ensures { OthersAreSorted }
{
    precedence_law();
}

/// Every upgrade is an entry of the channel, and stands before the installed one where that is in the channel.
pub fn upgrades_stand_before()
    ensures { UpgradesStandBefore }
{}

/// A path of upgrades in a channel never comes back to a name.
pub fn upgrades_never_come_back()
    ensures { UpgradesNeverComeBack }
{}
