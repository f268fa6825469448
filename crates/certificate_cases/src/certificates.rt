// Certificates: their texts, and what the checker says of them.
ghost use Rattle.std.specs.Prelude.{◌≡◌, ◌<◌, ◌≤◌, ◌^◌, length};
ghost use Rattle.std.specs.Bool.{OnTrue};
ghost use Rattle.op_constraints.specs.Meets.{IsClosed};
ghost use Rattle.derivation_check.specs.Faults.{walk_of, steps_of};

use anyhow::{Result, bail};
use derivation_check::{CertFault, Checker, LogFault, Verdict};
use derivations::{
    Certificate, Finding, Hint, Log, ProofSink, Refutation, read_certificate, write_certificate,
};
use olm_base::{Bytes, Many, Memory};
use op_constraints::{Lit, Problem, VAR_LIMIT, VarId};
use percent_encoding::percent_decode;
use std::alloc::Global;

/// The numbers of the walk, and the refutations.
fn sizes(finding: &Finding) -> (usize, usize)
    ensures walk { result.0 ≡ length (walk_of finding.now) }
    ensures steps { result.1 ≡ length (steps_of finding.now) }
{
    match finding {
        Finding::Chosen { walk, refutations } => {
            (walk.as_slice().len(), refutations.as_slice().len())
        }
        Finding::Refused { refutation: _ } => (0, 0),
        Finding::Undecided => (0, 0),
    }
}

/// Whether a checker with room for walks of as many numbers as there may be variables takes the certificate.
pub fn is_short(certificate: &Certificate) -> bool
    ensures lemmas { OnTrue result (length certificate.now.log.lemmas < 2 ^ 32) }
    ensures walk { OnTrue result (length (walk_of certificate.now.finding) ≤ VAR_LIMIT) }
    ensures steps { OnTrue result (length (steps_of certificate.now.finding) < 2 ^ 32) }
{
    let (numbers, steps) = sizes(&certificate.finding);
    certificate.log.lemmas.as_slice().len() < 1 << 32 && numbers <= VAR_LIMIT && steps < 1 << 32
}

/// Prints the lines of a text.
pub fn put_lines(rt: &impl Print, alloc: Global, text: &Bytes) -> Result<()> {
    let text = String::from_utf8_lossy(alloc, text.as_slice())?;
    for line in text.lines() {
        println!(rt; "  {line}")?;
    }
    Ok(())
}

/// Whether the answer for the log alone is that for the whole, as far as it tells of the log.
fn agrees(log: Result<(), LogFault>, whole: Result<Verdict, CertFault>) -> bool {
    match whole {
        Err(CertFault::Lemma(fault)) => log == Err(fault),
        Err(CertFault::WrongSize { .. }) => true,
        _ => log == Ok(()),
    }
}

/// The answer of one checker, which is asked twice for the whole, and between for the log.
pub fn checked(alloc: Global, problem: &Problem, certificate: &Certificate) -> Result<Verdict>
    requires { IsClosed problem.now }
{
    if !is_short(certificate) {
        bail!("too long");
    }
    let mut checker = Checker::new(alloc, problem, VAR_LIMIT as u32)?;
    let whole = checker.check(certificate);
    let log = checker.check_log(&certificate.log);
    let again = checker.check(certificate);
    if whole != again || !agrees(log, whole) {
        bail!("the answers differ");
    }
    match whole {
        Ok(verdict) => Ok(verdict),
        Err(fault) => bail!("{fault}"),
    }
}

/// The certificate of a text, which must be its spelling.
fn certificate_of(alloc: Global, text: &[u8]) -> Result<Certificate> {
    let certificate = read_certificate(alloc, text)?;
    let again = write_certificate(alloc, &certificate)?;
    if again.as_slice() != text {
        bail!("written as another text");
    }
    Ok(certificate)
}

/// `verify:` prints the checker's verdict on the certificate of these lines, or the fault.
pub fn put_verified(rt: &impl Print, alloc: Global, problem: &Problem, lines: &str) -> Result<()>
    requires { IsClosed problem.now }
{
    let text = format!(in alloc; "{lines}\n")?;
    let certificate = certificate_of(alloc, text.as_bytes())?;
    let verdict = checked(alloc, problem, &certificate)?;
    println!(rt; "  {verdict:?}")?;
    Ok(())
}

/// `read TEXT` prints whether the text, in which `%0a` ends a line, is a certificate, or the fault.
pub fn put_read(rt: &impl Print, alloc: Global, words: &str) -> Result<()> {
    let mut text = Vec::new(alloc);
    percent_decode(words.as_bytes()).append_to(&mut text)?;
    let _certificate = certificate_of(alloc, text.as_slice())?;
    println!(rt; "  a certificate")?;
    Ok(())
}

/// The refutation that denies the variable 1, by the lemma 7.
fn refutation(alloc: Global) -> Result<Refutation, Memory> {
    let lit = Lit {
        var: VarId(1),
        positive: false,
    };
    Ok(Refutation {
        lits: Many::from_vec(vec![in alloc; lit]?),
        hints: Many::from_vec(vec![in alloc; Hint::Lemma(7)]?),
    })
}

/// A log to which that lemma is added `count` times. It prints the numbers that the lemmas get.
fn log_of(rt: &impl Print, alloc: Global, count: u32) -> Result<Log> {
    let step = refutation(alloc)?;
    let mut log = Log {
        lemmas: Many::new(alloc),
    };
    print!(rt; "  numbers")?;
    for _ in 0..count {
        if log.lemmas.as_slice().len() < 9 {
            let number = log.push(alloc, step.lits.as_slice(), step.hints.as_slice())?;
            print!(rt; " {number}")?;
        }
    }
    println!(rt; "")?;
    Ok(log)
}

/// `lemmas COUNT` adds a lemma to a log `COUNT` times, and prints the numbers and the certificate.
pub fn put_lemmas(rt: &impl Print, alloc: Global, count: &str) -> Result<()> {
    let log = log_of(rt, alloc, count.parse()?)?;
    let certificate = Certificate {
        vars: 0,
        log,
        finding: Finding::Undecided,
    };
    let text = write_certificate(alloc, &certificate)?;
    put_lines(rt, alloc, &text)
}
