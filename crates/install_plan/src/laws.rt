// Laws of plans.
ghost use Rattle.std.specs.Prelude.{◌≤◌, length};
ghost use Rattle.cluster_objects.specs.declared.resolutions.Taken.{Taken};
ghost use Rattle.install_plan.specs.Laws.{PlansAreNew};
ghost use Rattle.install_plan.specs.Subscribing.{name_limit, new_name};

use object_bodies::made_law;

/// A plan that a resolution has may be written at the key of its number, where the law of histories allows it: it is
/// new, its steps have distinct keys, and each is one that a plan may have.
pub fn plans_are_new()
    ensures new { PlansAreNew }
{
    made_law();
}

/// The name of a subscription that a plan adds is no longer than a name may be.
pub fn names_are_short()
    ensures short { (taken : Taken) → length (new_name taken) ≤ name_limit }
{}
