// What the search decides.
ghost use Rattle.op_constraints.specs.Meets.{IsClosed};

use crate::certificates::{checked, put_lines};
use crate::walks::put_numbers;
use anyhow::{Result, bail};
use derivations::{Certificate, Finding, write_certificate};
use olm_base::Memory;
use op_constraints::{Problem, Tried, first_walk};
use preference_search::{Decision, decide};
use std::alloc::Global;

fn certificate_of(decision: Decision) -> Certificate {
    match decision {
        Decision::Chosen {
            walk: _,
            set: _,
            certificate,
        } => certificate,
        Decision::Refused { certificate } => certificate,
        Decision::Undecided { certificate } => certificate,
    }
}

fn put_finding(rt: &impl Print, finding: &Finding) -> Result<()> {
    match finding {
        Finding::Chosen {
            walk,
            refutations: _,
        } => put_numbers(rt, "chosen", walk.as_slice()),
        Finding::Refused { refutation: _ } => put_numbers(rt, "refused", &[]),
        Finding::Undecided => put_numbers(rt, "undecided", &[]),
    }
}

/// The certificate of what is decided within a budget, which the checker must accept.
fn accepted(alloc: Global, problem: &Problem, budget: u32) -> Result<Certificate>
    requires { IsClosed problem.now }
{
    let certificate = certificate_of(decide(alloc, problem, budget)?);
    let _verdict = checked(alloc, problem, &certificate)?;
    Ok(certificate)
}

/// `decide BUDGET` prints what the search decides within `BUDGET` lemmas, and whether it has any.
pub fn put_decided(rt: &impl Print, alloc: Global, problem: &Problem, budget: &str) -> Result<()>
    requires { IsClosed problem.now }
{
    let budget: u32 = budget.parse()?;
    let certificate = accepted(alloc, problem, budget)?;
    put_finding(rt, &certificate.finding)?;
    if certificate.log.lemmas.as_slice().is_empty() {
        println!(rt; "  by no lemma")?;
    } else {
        println!(rt; "  by lemmas")?;
    }
    Ok(())
}

/// `certificate BUDGET` prints the certificate of what the search decides.
pub fn put_certificate(
    rt: &impl Print,
    alloc: Global,
    problem: &Problem,
    budget: &str,
) -> Result<()>
    requires { IsClosed problem.now }
{
    let budget: u32 = budget.parse()?;
    let certificate = accepted(alloc, problem, budget)?;
    let text = write_certificate(alloc, &certificate)?;
    put_lines(rt, alloc, &text)
}

/// Whether the decision is what the partial walks come to when they are tried one after another.
fn is_agreed(decision: &Decision, tried: &Tried) -> bool {
    match (decision, tried) {
        (Decision::Chosen { walk, .. }, Tried::Found { walk: best }) => {
            walk.as_slice() == best.as_slice()
        }
        (Decision::Refused { .. }, Tried::Nothing) => true,
        _ => false,
    }
}

fn agrees(alloc: Global, problem: &Problem, budget: u32) -> Result<bool, Memory>
    requires { IsClosed problem.now }
{
    let tried = first_walk(alloc, problem, budget)?;
    Ok(is_agreed(&decide(alloc, problem, budget)?, &tried))
}

/// `agree BUDGET` prints whether the search decides what partial walks come to, within `BUDGET` lemmas and tries.
pub fn put_agreed(rt: &impl Print, alloc: Global, problem: &Problem, budget: &str) -> Result<()>
    requires { IsClosed problem.now }
{
    if !agrees(alloc, problem, budget.parse()?)? {
        bail!("not agreed");
    }
    println!(rt; "  agreed")?;
    Ok(())
}
