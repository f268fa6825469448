// Laws of the resolver's writes.
ghost use Rattle.resolver_role.specs.Laws as law;

use install_plan::plans_are_new;

/// Each write of the resolver, in a view of any age, is one that the law of histories allows.
pub fn writes_are_allowed()
    ensures { law.WritesAreAllowed }
{
    plans_are_new();
}

/// Where the resolver has no write and no plan is under way, the resolution that is there is of the view's basis.
pub fn idle_resolutions_are_fresh()
    ensures { law.IdleIsFresh }
{}

/// A resolution that the resolver writes is of the view's basis, and is a decision for the view.
pub fn decisions_are_of_their_view()
    ensures { law.WrittenIsDecided }
{}
