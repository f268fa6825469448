// The checker, and the order in which it looks for faults.
ghost use Rattle.std.specs.Prelude.{◌≡◌, ◌↔◌, ℕ, ◌<◌, ◌≤◌, ◌^◌, [], Bool, length, IsOk, IfOk, OnOk, Some, None};
ghost use Rattle.op_constraints.specs.Meets.{IsClosed, Meets};
ghost use Rattle.derivations.specs.Follows.{LogFollows, clauses, log_fault};
ghost use Rattle.derivations.specs.Accepted.{IsAccepted};
ghost use Rattle.derivations.specs.Laws.{AllHold, IsRight};
ghost use Rattle.derivation_check.specs.Checking.{IsReady};
ghost use Rattle.derivation_check.specs.Faults.{unless, chosen_fault, refused_fault, first_fault, verdict_of, walk_of, steps_of};

use crate::denials::{denied_else, deny_set};
use crate::hints::log_fault_of;
use crate::marks::Marks;
use crate::met::not_met;
use crate::pairs::unpaired;
use crate::steps::{refutation_fault, unshown};
use crate::walking::walk_along;
use crate::{CertFault, Verdict};
use derivations::{Certificate, Finding, Lemma, Log, LogFault, Refutation};
use olm_base::Memory;
use op_constraints::{Problem, Walk};
use std::alloc::Global;
use std::marker::Model;

/// The first fault of a walk and its refutations, over a log that follows.
fn chosen_fault_of(
    problem: &Problem,
    listed: &mut Marks,
    marks: &mut Marks,
    path: &mut Walk<'_>,
    lemmas: &[Lemma],
    numbers: &[u32],
    steps: &[(u32, u32, Refutation)],
) -> Option<CertFault>
    requires ready { IsReady problem.now listed.old marks.old path.old }
    requires follows { LogFollows problem.now lemmas.now }
    requires numbers { length numbers.now < 2 ^ 32 }
    requires steps { length steps.now < 2 ^ 32 }
    ensures fault { result ≡ chosen_fault problem.now lemmas.now numbers.now steps.now }
    ensures ready { IsReady problem.now listed.new marks.new path.new }
{
    path.restart();
    match walk_along(path, numbers) {
        None => {}
        Some(fault) => return Some(fault),
    }
    match not_met(problem, path.set()) {
        None => {}
        Some(fault) => return Some(fault),
    }
    match unpaired(numbers, steps) {
        None => {}
        Some(fault) => return Some(fault),
    }
    path.restart();
    match denied_else(path, problem.len(), numbers, steps) {
        None => {}
        Some(fault) => return Some(fault),
    }
    unshown(problem, lemmas, listed, marks, steps)
}

/// The first fault of a refusal's refutation, over a log that follows.
fn refused_fault_of(
    problem: &Problem,
    listed: &mut Marks,
    marks: &mut Marks,
    path: &mut Walk<'_>,
    lemmas: &[Lemma],
    refutation: &Refutation,
) -> Option<CertFault>
    requires ready { IsReady problem.now listed.old marks.old path.old }
    requires follows { LogFollows problem.now lemmas.now }
    ensures fault { result ≡ refused_fault problem.now lemmas.now refutation.now }
    ensures ready { IsReady problem.now listed.new marks.new path.new }
{
    path.restart();
    if !deny_set(path.set(), problem.len(), refutation.lits.as_slice()) {
        return Some(CertFault::WholeDenies);
    }
    match refutation_fault(problem, lemmas, listed, marks, refutation) {
        None => None,
        Some(cause) => Some(CertFault::WholeStep { cause }),
    }
}

/// The first fault of a certificate.
fn certificate_fault(
    problem: &Problem,
    listed: &mut Marks,
    marks: &mut Marks,
    path: &mut Walk<'_>,
    certificate: &Certificate,
) -> Option<CertFault>
    requires ready { IsReady problem.now listed.old marks.old path.old }
    requires lemmas { length certificate.now.log.lemmas < 2 ^ 32 }
    requires numbers { length (walk_of certificate.now.finding) < 2 ^ 32 }
    requires steps { length (steps_of certificate.now.finding) < 2 ^ 32 }
    ensures fault { result ≡ first_fault problem.now certificate.now }
    ensures ready { IsReady problem.now listed.new marks.new path.new }
{
    if certificate.vars as usize != problem.len() {
        return Some(CertFault::WrongSize {
            found: certificate.vars,
            expected: problem.len() as u32,
        });
    }
    let lemmas = certificate.log.lemmas.as_slice();
    match log_fault_of(problem, listed, marks, lemmas) {
        None => {}
        Some(fault) => return Some(CertFault::Lemma(fault)),
    }
    match &certificate.finding {
        Finding::Chosen { walk, refutations } => chosen_fault_of(
            problem,
            listed,
            marks,
            path,
            lemmas,
            walk.as_slice(),
            refutations.as_slice(),
        ),
        Finding::Refused { refutation } => {
            refused_fault_of(problem, listed, marks, path, lemmas, refutation)
        }
        Finding::Undecided => None,
    }
}

/// What an accepted certificate shows.
fn verdict(certificate: &Certificate) -> Verdict
    requires lemmas { length certificate.now.log.lemmas < 2 ^ 32 }
    requires numbers { length (walk_of certificate.now.finding) < 2 ^ 32 }
    ensures { result ≡ verdict_of certificate.now certificate.now.finding }
{
    match &certificate.finding {
        Finding::Chosen {
            walk,
            refutations: _,
        } => Verdict::Chosen {
            length: walk.as_slice().len() as u32,
        },
        Finding::Refused { refutation: _ } => Verdict::Refused,
        Finding::Undecided => Verdict::Undecided {
            lemmas: certificate.log.lemmas.as_slice().len() as u32,
        },
    }
}

/// The first lemma that doesn't follow, as an error.
fn log_answer(
    problem: &Problem,
    listed: &mut Marks,
    marks: &mut Marks,
    lemmas: &[Lemma],
) -> Result<(), LogFault>
    requires short { length lemmas.now < 2 ^ 32 }
    requires size { length marks.old ≡ length problem.now }
    requires listed { length listed.old ≡ length problem.now }
    requires closed { IsClosed problem.now }
    ensures answer { result ≡ unless (log_fault problem.now [] lemmas.now) tt }
    ensures listed { length listed.new ≡ length listed.old }
    ensures same { length marks.new ≡ length marks.old }
{
    match log_fault_of(problem, listed, marks, lemmas) {
        None => Ok(()),
        Some(fault) => Err(fault),
    }
}

/// The first fault of a certificate, as an error.
fn certificate_answer(
    problem: &Problem,
    listed: &mut Marks,
    marks: &mut Marks,
    path: &mut Walk<'_>,
    certificate: &Certificate,
) -> Result<Verdict, CertFault>
    requires ready { IsReady problem.now listed.old marks.old path.old }
    requires lemmas { length certificate.now.log.lemmas < 2 ^ 32 }
    requires numbers { length (walk_of certificate.now.finding) < 2 ^ 32 }
    requires steps { length (steps_of certificate.now.finding) < 2 ^ 32 }
    ensures answer { result ≡ unless (first_fault problem.now certificate.now) (verdict_of certificate.now certificate.now.finding) }
    ensures ready { IsReady problem.now listed.new marks.new path.new }
{
    match certificate_fault(problem, listed, marks, path, certificate) {
        None => Ok(verdict(certificate)),
        Some(fault) => Err(fault),
    }
}

/// Checks logs and certificates of one problem. It takes memory when it is made, and none after.
#[derive(Drop)]
pub struct Checker<'p> {
    problem: &'p Problem,
    listed: Marks,
    marks: Marks,
    path: Walk<'p>,
    longest: u32,
}

impl<'p> Model for Checker<'p> {
    ghost use Rattle.derivation_check.specs.Checking.{Checking, IsReady};
    ghost use Rattle.std.specs.Prelude.{◌<◌, ◌^◌, length};

    ghost Value = { Checking };

    ghost view = { λ c. record { problem = c.problem.now; longest = c.longest } };

    ghost invariant = { λ c. IsReady c.problem.now c.listed c.marks c.path × (c.longest < 2 ^ 32) };
}

impl<'p> Checker<'p> {
    /// A checker of this problem, with room for walks of at most this length.
    pub fn new(alloc: Global, problem: &'p Problem, walk: u32) -> Result<Checker<'p>, Memory>
        requires { IsClosed problem.now }
        ensures problem { IfOk result (λ checker. checker.problem ≡ problem.now) }
        ensures longest { IfOk result (λ checker. checker.longest ≡ walk) }
    {
        let count = problem.len();
        Ok(Checker {
            problem,
            listed: Marks::new(alloc, count)?,
            marks: Marks::new(alloc, count)?,
            path: Walk::new(alloc, problem)?,
            longest: walk,
        })
    }

    /// Whether each lemma follows from the problem and the earlier ones; else the first one that doesn't.
    pub fn check_log(&mut self, log: &Log) -> Result<(), LogFault>
        requires { length log.now.lemmas < 2 ^ 32 }
        ensures same { self.new ≡ self.old }
        ensures answer { result ≡ unless (log_fault self.old.problem [] log.now.lemmas) tt }
        ensures follows { IsOk result ↔ LogFollows self.old.problem log.now.lemmas }
        ensures holds { OnOk result ((set : ℕ → Bool) → Meets self.old.problem set → AllHold set (clauses log.now.lemmas)) }
    {
        log_answer(
            self.problem,
            &mut self.listed,
            &mut self.marks,
            log.lemmas.as_slice(),
        )
    }

    /// What the certificate shows, where it is accepted; else its first fault.
    pub fn check(&mut self, certificate: &Certificate) -> Result<Verdict, CertFault>
        requires walk { length (walk_of certificate.now.finding) ≤ self.old.longest }
        requires lemmas { length certificate.now.log.lemmas < 2 ^ 32 }
        requires refutations { length (steps_of certificate.now.finding) < 2 ^ 32 }
        ensures same { self.new ≡ self.old }
        ensures answer { result ≡ unless (first_fault self.old.problem certificate.now) (verdict_of certificate.now certificate.now.finding) }
        ensures accepted { IsOk result ↔ IsAccepted self.old.problem certificate.now }
        ensures right { OnOk result (IsRight self.old.problem certificate.now.finding) }
    {
        certificate_answer(
            self.problem,
            &mut self.listed,
            &mut self.marks,
            &mut self.path,
            certificate,
        )
    }
}
