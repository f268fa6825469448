//! What is so of every problem of a namespace: each contract is a law over the definitions that the other contracts
//! cite.

ghost use Rattle.problem_build.specs.Laws.{AllAreThere, KindsAreOnce, PackagesAreOnce, PicksAreEntriesOrTips, ThereIsOne};

/// A basis and its catalogs have one problem, and one list of names.
pub fn problem_is_one()
    ensures { ThereIsOne }
{}

/// Every variable that a constraint names is there.
pub fn named_variables_are_there()
    ensures { AllAreThere }
{}

/// What a walk picks are entries and tips.
pub fn picks_are_entries_or_tips()
    ensures { PicksAreEntriesOrTips }
{}

/// A set that meets the problem has one entry or tip of a package at most, and one provider of a kind at most.
pub fn packages_and_kinds_are_once()
    ensures packages { PackagesAreOnce }
    ensures kinds { KindsAreOnce }
{}
