// What is told of a question.
ghost use Rattle.std.specs.Prelude.{◌≡◌, ◌<◌, ◌^◌, ℕ, length, IfOk, Ok};
ghost use Rattle.op_constraints.specs.Meets.{IsClosed};
ghost use Rattle.preference_search.specs.Decided.{IsDecision};
ghost use Rattle.catalog_choice.specs.Asking.{IsNothing, IsOfView};
ghost use Rattle.catalog_choice.specs.Deciding as spec;

use crate::{Question, ask, ask_nothing, ask_view, picks_of};
use answer_lines::{Checked, Pick, answer_text, verify};
use object_store::View;
use olm_base::{Bytes, Many, Memory};
use preference_search::{Decision, decide};
use problem_build::BuildFault;
use std::alloc::Global;

/// What became of a question.
#[derive(Clone, Copy, Debug, PartialEq, Eq)]
pub enum Decided {
    Chosen,
    Refused,
    Undecided,
}

/// What is printed of a question, and what became of it.
#[derive(Debug, Drop)]
pub struct Answer {
    pub text: Vec<u8>,
    pub decided: Decided,
}

fn decided_of(decision: &Decision) -> Decided
    ensures { result ≡ spec.decided_of decision.now }
{
    match decision {
        Decision::Chosen { .. } => Decided::Chosen,
        Decision::Refused { .. } => Decided::Refused,
        Decision::Undecided { .. } => Decided::Undecided,
    }
}

/// What the best walk picks, where there is one.
fn picked_by(alloc: Global, question: &Question, decision: &Decision) -> Result<Many<Pick>, Memory>
    requires closed { IsClosed question.now.problem }
    requires decision { (budget : ℕ) × IsDecision question.now.problem budget decision.now }
    ensures { IfOk result (λ found. found ≡ spec.picked_by question.now decision.now) }
{
    match decision {
        Decision::Chosen {
            walk,
            set: _,
            certificate: _,
        } => picks_of(alloc, question, walk.as_slice()),
        Decision::Refused { certificate: _ } => Ok(Many::new(alloc)),
        Decision::Undecided { certificate: _ } => Ok(Many::new(alloc)),
    }
}

/// What is told of a question that is decided with no more lemmas than the budget.
fn tell(alloc: Global, question: &Question, budget: u32) -> Result<Answer, Memory>
    requires closed { IsClosed question.now.problem }
    ensures { IfOk result (λ answer. (decision : Decision) × IsDecision question.now.problem budget decision × spec.IsTold question.now budget decision answer) }
{
    let decision = decide(alloc, &question.problem, budget)?;
    let picks = picked_by(alloc, question, &decision)?;
    Ok(Answer {
        text: answer_text(alloc, picks.as_slice(), &decision)?,
        decided: decided_of(&decision),
    })
}

/// Decides what a view asks, with no more lemmas than the budget.
pub fn decide_text(alloc: Global, view: &View, budget: u32) -> Result<Answer, BuildFault>
    ensures { spec.IsAnsweredBy (IsOfView view.now) budget result }
{
    let question = ask_view(alloc, view)?;
    Ok(tell(alloc, &question, budget)?)
}

/// Decides for what asks nothing: nothing is chosen.
pub fn decide_nothing(alloc: Global, budget: u32) -> Result<Answer, Memory>
    ensures { IfOk result (λ answer. spec.IsAnsweredBy IsNothing budget (Ok answer)) }
{
    let question = ask_nothing(alloc);
    tell(alloc, &question, budget)
}

/// Decides what a catalog of this body is asked by a package and a channel, with no more lemmas than the budget.
pub fn resolve_text(
    alloc: Global,
    body: Bytes,
    package_name: &[u8],
    channel: &[u8],
    budget: u32,
) -> Result<Answer, BuildFault>
    ensures { spec.IsAnswered body package_name.now channel.now budget result }
{
    let question = ask(alloc, body, package_name, channel)?;
    Ok(tell(alloc, &question, budget)?)
}

/// What the text of a certificate shows of that problem. The catalog alone is trusted, and nothing is asked of
/// whoever wrote the text.
pub fn verify_text(
    alloc: Global,
    body: Bytes,
    package_name: &[u8],
    channel: &[u8],
    certificate: &[u8],
) -> Result<Checked, BuildFault>
    requires { length certificate.now < 2 ^ 32 }
    ensures { spec.IsVerified body package_name.now channel.now certificate.now result }
{
    let question = ask(alloc, body, package_name, channel)?;
    Ok(verify(alloc, &question.problem, certificate)?)
}
