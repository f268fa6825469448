// What the problem of a view comes to.
ghost use Rattle.std.specs.Prelude.{◌≡◌, ℕ, List, [], Ok, Some, IfOk};
ghost use Rattle.std.specs.List.{filter_map};
ghost use Rattle.op_constraints.specs.Meets.{IsClosed};
ghost use Rattle.op_constraints.specs.Walks.{walk};
ghost use Rattle.preference_search.specs.Decided.{IsDecision};
ghost use Rattle.cluster_history.specs.Views as views;
ghost use Rattle.catalog_choice.specs.Asking.{IsOfView};
ghost use Rattle.controller_rules.specs.Deciding as spec;

use answer_lines::Pick;
use catalog_choice::{Question, ask_view, picks_of};
use cluster_objects::{Outcome, Taken};
use derivations::write_certificate;
use object_store::View;
use olm_base::{Bytes, Many, Memory};
use preference_search::{Decision, decide};
use problem_build::BuildFault;
use std::alloc::Global;

/// What the problem of a view came to, and the certificate's text.
#[derive(Drop)]
pub(crate) struct Resolved {
    pub(crate) outcome: Outcome,
    pub(crate) certificate: Bytes,
}

fn taken_pick(pick: &Pick) -> Result<Option<Taken>, Memory>
    ensures { IfOk result (λ taken. taken ≡ spec.taken_pick pick.now) }
{
    match pick {
        Pick::Take(taken) => Ok(Some(taken.clone()?)),
        Pick::Keep(_) => Ok(None),
    }
}

fn taken_of(alloc: Global, picks: &[Pick]) -> Result<Many<Taken>, Memory>
    ensures { IfOk result (λ taken. taken ≡ filter_map spec.taken_pick picks.now) }
{
    let mut taken = Many::new(alloc);
    'picks: for pick in picks {
        if let Some(one) = taken_pick(pick)? {
            taken.push(one)?;
        }
    }
    Ok(taken)
}

// What a walk takes.
fn takes(alloc: Global, question: &Question, numbers: &[u32]) -> Result<Many<Taken>, Memory>
    requires closed { IsClosed question.now.problem }
    requires walked { (chosen : List ℕ) × (walk question.now.problem numbers.now ≡ Some chosen) }
    ensures { IfOk result (λ taken. taken ≡ spec.takes question.now numbers.now) }
{
    let picks = picks_of(alloc, question, numbers)?;
    taken_of(alloc, picks.as_slice())
}

// What a decision is in the words of a resolution.
fn resolved_by(
    alloc: Global,
    question: &Question,
    budget: u32,
    decision: Decision,
) -> Result<Resolved, Memory>
    requires closed { IsClosed question.now.problem }
    requires decided { IsDecision question.now.problem budget decision }
    ensures { IfOk result (λ resolved. (view : views.View) → IsOfView view (Ok question.now)
        → spec.IsResolutionOf view budget resolved.outcome resolved.certificate) }
{
    match decision {
        Decision::Chosen {
            walk,
            set: _,
            certificate,
        } => {
            let taken = takes(alloc, question, walk.as_slice())?;
            Ok(Resolved {
                outcome: Outcome::Chosen { walk, taken },
                certificate: write_certificate(alloc, &certificate)?,
            })
        }
        Decision::Refused { certificate } => Ok(Resolved {
            outcome: Outcome::Refused,
            certificate: write_certificate(alloc, &certificate)?,
        }),
        Decision::Undecided { certificate } => Ok(Resolved {
            outcome: Outcome::Undecided { lemmas: budget },
            certificate: write_certificate(alloc, &certificate)?,
        }),
    }
}

fn resolved_question(alloc: Global, question: &Question, budget: u32) -> Result<Resolved, Memory>
    requires { IsClosed question.now.problem }
    ensures { IfOk result (λ resolved. (view : views.View) → IsOfView view (Ok question.now)
        → spec.IsResolutionOf view budget resolved.outcome resolved.certificate) }
{
    let decision = decide(alloc, &question.problem, budget)?;
    resolved_by(alloc, question, budget, decision)
}

fn too_large(alloc: Global, count: u64) -> Resolved
    ensures { result ≡ record { outcome = Outcome.TooLarge count; certificate = [] } }
{
    Resolved {
        outcome: Outcome::TooLarge { count },
        certificate: Bytes::from_vec(Vec::new(alloc)),
    }
}

/// Decides the view's problem, with no more lemmas than the budget.
pub(crate) fn resolve(alloc: Global, view: &View, budget: u32) -> Result<Resolved, Memory>
    ensures { IfOk result (λ resolved.
        spec.IsResolutionOf view.now budget resolved.outcome resolved.certificate) }
{
    match ask_view(alloc, view) {
        Ok(question) => resolved_question(alloc, &question, budget),
        Err(BuildFault::TooManyVariables { count }) => Ok(too_large(alloc, count)),
        Err(BuildFault::Memory) => Err(Memory),
    }
}
