//! How many lemmas there can be.
//!
//! A clause holds of each variable its positive literal, its negative one, or neither. So there are 3^n clauses of n variables that aren't
//! tautologies, the empty one among them. A lemma of an irredundant log contains no earlier one, so no clause is there twice.
#![tactic(auto)]

ghost use Rattle.lemma_bound.specs.Laws.{FewLemmas};

/// Of n variables there are fewer than 3^n lemmas in a log that follows, is irredundant and has no empty clause.
pub fn few_lemmas()
    ensures { FewLemmas }
{}
