//! What is so of all problems and walks: each contract is a law, over the definitions that the other contracts cite.

ghost use Rattle.op_constraints.specs.Laws.{MembersOnce, NoneMeets, GoesOn, FoundByNumbers, ChosenArePicked, SameWalks, Ordered, NoFullPrefix, Least, FirstIsOne, FirstIsBest, FullMeets, WaitingHasMember};

/// AtMost keeps each member, and each once.
pub fn members_stand_once()
    ensures { MembersOnce }
{}

/// No set meets a problem with a mandatory variable that has an empty Dependency.
pub fn empty_dependency_refuses()
    ensures { NoneMeets }
{}

/// A number more picks its member of the first list that waits.
pub fn walks_go_on()
    ensures { GoesOn }
{}

/// A walk is found by taking its numbers one after another.
pub fn walks_are_found()
    ensures { FoundByNumbers }
{}

/// What a walk chose are the mandatory variables and then its picks.
pub fn chosen_are_picked()
    ensures { ChosenArePicked }
{}

/// The walks are those that keep an agenda, pass its heads and append to its end.
pub fn agenda_gives_same_walks()
    ensures { SameWalks }
{}

/// The order of walks is strict, total and decidable.
pub fn walks_are_ordered()
    ensures { Ordered }
{}

/// No full walk is a proper prefix of a walk.
pub fn no_walk_extends_full()
    ensures { NoFullPrefix }
{}

/// No two walks are best.
pub fn best_is_one()
    ensures { Least }
{}

/// There is one first walk, and where it succeeds it is that of so many zeros.
pub fn first_walk_is_one()
    ensures { FirstIsOne }
{}

/// Where the first walk succeeds, it is best.
pub fn first_is_best()
    ensures { FirstIsBest }
{}

/// What a full walk chose meets the problem, where it chose within a set that meets it.
pub fn full_meets()
    ensures { FullMeets }
{}

/// The first list that waits has a member in each set that meets the problem and has all that is chosen.
pub fn waiting_has_member()
    ensures { WaitingHasMember }
{}
