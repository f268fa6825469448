// Certificates over a chain of variables, which are checked many times, for measuring how long that takes.
//
// The chain has as many variables as the certificate says. Each of them needs the next one, and the last needs itself.
ghost use Rattle.std.specs.Prelude.{◌≡◌, ◌≤◌, ◌<◌, ◌^◌, length, IfOk};
ghost use Rattle.std.specs.List.{AllByRecursion};
ghost use Rattle.op_constraints.specs.Kept.{HasFewMembers};
ghost use Rattle.derivation_check.specs.Faults.{walk_of, steps_of};

use crate::certificates::is_short;
use anyhow::{Result, bail};
use derivation_check::{CertFault, Checker, Verdict};
use derivations::{Certificate, read_certificate};
use olm_base::{Many, Memory};
use op_constraints::{Constraint, Problem, VAR_LIMIT, VarId};
use std::alloc::Global;

/// What one variable of the chain needs.
fn link(alloc: Global, next: u32) -> Result<Many<Constraint>, Memory>
    ensures few { IfOk result (λ constraints. length constraints ≤ VAR_LIMIT) }
    ensures members { IfOk result (λ constraints. AllByRecursion HasFewMembers constraints) }
{
    let members = Many::from_vec(vec![in alloc; VarId(next)]?);
    Ok(Many::from_vec(vec![in alloc; Constraint::Dependency(members)]?))
}

/// A chain of `count` variables.
fn chain(alloc: Global, count: u32) -> Result<Problem, Memory> {
    let mut problem = Problem::new(alloc);
    for number in 0..count {
        let next = if number + 1 < count {
            number + 1
        } else {
            number
        };
        let constraints = link(alloc, next)?;
        if problem.len() < VAR_LIMIT {
            problem.push(alloc, constraints)?;
        }
    }
    Ok(problem)
}

/// The answer of the last round.
fn last_answer(
    checker: &mut Checker<'_>,
    certificate: &Certificate,
    rounds: u32,
) -> Result<Verdict, CertFault>
    requires walk { length (walk_of certificate.now.finding) ≤ checker.old.longest }
    requires lemmas { length certificate.now.log.lemmas < 2 ^ 32 }
    requires refutations { length (steps_of certificate.now.finding) < 2 ^ 32 }
{
    'rounds: for _ in 1..rounds {
        let _earlier = checker.check(certificate);
    }
    checker.check(certificate)
}

fn verdict(alloc: Global, rounds: u32, certificate: &Certificate) -> Result<Verdict> {
    let problem = chain(alloc, certificate.vars)?;
    if !problem.closed() || !is_short(certificate) {
        bail!("the chain is too long");
    }
    let mut checker = Checker::new(alloc, &problem, VAR_LIMIT as u32)?;
    match last_answer(&mut checker, certificate, rounds) {
        Ok(verdict) => Ok(verdict),
        Err(fault) => bail!("{fault}"),
    }
}

/// `chain ROUNDS:` checks the certificate of these lines over the chain `ROUNDS` times, and prints the last verdict or
/// fault.
pub fn put_chain(rt: &impl Print, alloc: Global, words: &str, lines: &str) -> Result<()> {
    let rounds: u32 = words.strip_suffix(':').unwrap_or(words).parse()?;
    let text = format!(in alloc; "{lines}\n")?;
    let certificate = read_certificate(alloc, text.as_bytes())?;
    let verdict = verdict(alloc, rounds, &certificate)?;
    println!(rt; "  {verdict:?}")?;
    Ok(())
}
