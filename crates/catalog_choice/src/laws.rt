//! What is so of everything that is asked: each contract is a law over the definitions that the other contracts cite.

ghost use Rattle.catalog_choice.specs.Laws.{AnswersAreAccepted, PicksArePrinted, PicksOfViewsArePrinted, ThereIsOneQuestion, ViewsAskOnce};

use problem_build::{picks_are_entries_or_tips, problem_is_one};

/// A catalog, a package and a channel ask one question.
#[tactic(auto, using(crate::proofs::Once::there_is_one_question))]
pub fn there_is_one_question()
    ensures { ThereIsOneQuestion }
{
    problem_is_one();
}

/// A view asks one question.
pub fn views_ask_once()
    ensures { ViewsAskOnce }
{
    problem_is_one();
}

/// Each variable that a walk picks is printed.
#[tactic(auto, using(crate::proofs::Printing::picks_are_printed))]
pub fn picks_are_printed()
    ensures { PicksArePrinted }
{
    picks_are_entries_or_tips();
}

/// Each variable that a walk of a view's problem picks is printed.
pub fn picks_of_views_are_printed()
    ensures { PicksOfViewsArePrinted }
{
    picks_are_entries_or_tips();
}

/// What is printed for a catalog is accepted for it.
#[tactic(auto, using(crate::proofs::Again::answers_are_accepted))]
pub fn answers_are_accepted()
    ensures { AnswersAreAccepted }
{
    there_is_one_question();
}
