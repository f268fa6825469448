// Decisions.
ghost use Rattle.std.specs.Prelude.{◌≡◌, IfOk};
ghost use Rattle.op_constraints.specs.Meets.{IsClosed};
ghost use Rattle.preference_search.specs.Decided.{IsDecision};
ghost use Rattle.preference_search.specs.State.{IsFound, IsRefuted, IsSpent};

use crate::Decision;
use crate::naming::places_of;
use crate::search::{Search, Turn};
use derivations::{Certificate, Finding, Refutation};
use olm_base::{Many, Memory};
use op_constraints::{Problem, set_of};
use std::alloc::Global;

fn copied(alloc: Global, numbers: &[u32]) -> Result<Many<u32>, Memory>
    ensures { IfOk result (λ copy. copy ≡ numbers.now) }
{
    let mut copy = Vec::new(alloc);
    for number in numbers {
        copy.push(*number)?;
    }
    Ok(Many::from_vec(copy))
}

/// The decision for a walk that was found.
fn chosen(alloc: Global, budget: u32, problem: &Problem, search: Search) -> Result<Decision, Memory>
    requires { IsFound problem.now budget search }
    ensures { IfOk result (λ decision. IsDecision problem.now budget decision) }
{
    let set = set_of(alloc, problem, search.chosen.as_slice())?;
    let walk = copied(alloc, search.numbers.as_slice())?;
    let Search {
        log,
        numbers,
        chosen: _,
        bits: _,
        steps,
    } = search;
    let certificate = Certificate {
        vars: problem.len() as u32,
        log: log.into_log(),
        finding: Finding::Chosen {
            walk: Many::from_vec(numbers),
            refutations: Many::from_vec(steps),
        },
    };
    Ok(Decision::Chosen {
        walk,
        set,
        certificate,
    })
}

/// The decision for a problem whose mandatory variables are refuted.
fn refused(budget: u32, problem: &Problem, search: Search, refutation: Refutation) -> Decision
    requires { IsRefuted problem.now budget search refutation }
    ensures { IsDecision problem.now budget result }
{
    let Search {
        log,
        numbers: _,
        chosen: _,
        bits: _,
        steps: _,
    } = search;
    Decision::Refused {
        certificate: Certificate {
            vars: problem.len() as u32,
            log: log.into_log(),
            finding: Finding::Refused { refutation },
        },
    }
}

/// The decision where the budget is spent.
fn undecided(budget: u32, problem: &Problem, search: Search) -> Decision
    requires { IsSpent problem.now budget search }
    ensures { IsDecision problem.now budget result }
{
    let Search {
        log,
        numbers: _,
        chosen: _,
        bits: _,
        steps: _,
    } = search;
    Decision::Undecided {
        certificate: Certificate {
            vars: problem.len() as u32,
            log: log.into_log(),
            finding: Finding::Undecided,
        },
    }
}

/// Decides the problem by going through the partial walks in their order, with no more lemmas than the budget.
///
/// A lemma is made of each partial walk that is denied and holds neither a given clause nor an earlier lemma.
/// Each partial walk costs what the constraints that name its last variable, the lemmas that do, and the lists of all that is chosen cost to go through.
pub fn decide_plain(alloc: Global, problem: &Problem, budget: u32) -> Result<Decision, Memory>
    requires { IsClosed problem.now }
    ensures { IfOk result (λ decision. IsDecision problem.now budget decision) }
{
    let _count = problem.len();
    let places = places_of(alloc, problem)?;
    let mut search = Search::new(alloc, problem)?;
    loop {
        match search.turn(alloc, budget, problem, &places)? {
            Turn::Onward => {}
            Turn::Found => return chosen(alloc, budget, problem, search),
            Turn::Refused(refutation) => return Ok(refused(budget, problem, search, refutation)),
            Turn::Spent => return Ok(undecided(budget, problem, search)),
        }
    }
}

/// Decides the problem with no more lemmas than the budget. For now it is `decide_plain`.
pub fn decide(alloc: Global, problem: &Problem, budget: u32) -> Result<Decision, Memory>
    requires { IsClosed problem.now }
    ensures { IfOk result (λ decision. IsDecision problem.now budget decision) }
{
    decide_plain(alloc, problem, budget)
}
