// Laws of kept histories. The test `is_valid` says which bytes are a valid catalog; where a law needs that it passes each
// one, its statement says so. What is said of one write more is so of each write, since each beginning is kept, too.
ghost use Rattle.role_laws.specs.Laws as law;

use lawful_roles::roles_are_lawful;
use object_bodies::made_law;

/// Each beginning of a kept history is kept.
pub fn beginnings_stay_lawful()
    ensures { law.BeginningsAreKept }
{}

/// What a view shows is in the order of its keys.
pub fn views_are_in_order()
    ensures kept { law.ViewsAreInOrder }
    ensures based { law.ViewsFollowTheirBase }
{}

/// The phase of a CSV changes along an edge alone, in some view of the history before the write. The installer changes no
/// phase, and a user changes one only by removing the CSV and applying it anew.
pub fn csvs_go_by_edges()
    ensures { law.CsvsGoByEdges }
{
    roles_are_lawful();
}

/// Whatever the outcome, a resolution by the resolver is a decision of the view that it was made in.
pub fn resolvers_decide()
    ensures { law.ResolversDecide }
{}

/// No two namespaces claim one kind for one target, at any moment.
pub fn claims_stay_disjoint()
    ensures { law.ClaimsStayDisjoint }
{}

/// The state of a Subscription changes along an edge alone, in some view of the history before the write.
pub fn subscriptions_go_by_edges()
    ensures { law.SubscriptionsGoByEdges }
{
    roles_are_lawful();
}

/// The phase of a plan changes along an edge alone, in some view of the history before the write.
pub fn plans_go_by_edges()
    ensures { law.PlansGoByEdges }
{
    roles_are_lawful();
}

/// Where a namespace has a group, its operators are installed only where each kind that they own is claimed for its
/// targets.
pub fn installed_csvs_hold_claims()
    ensures { law.InstalledCsvsHoldClaims }
{}

/// The leases of each role follow one another.
pub fn grants_go_in_order()
    ensures { law.GrantsGoInOrder }
{
    roles_are_lawful();
    made_law();
}
