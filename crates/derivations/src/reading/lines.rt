// The lines of a certificate's text.
ghost use Rattle.std.specs.Prelude.{◌≡◌, ◌+◌, ◌<◌, ◌≤◌, ◌^◌, length, IfOk};
ghost use Rattle.olm_base.specs.Outcome.{Gives};
ghost use Rattle.derivations.specs.Reading as spec;
ghost use Rattle.derivations.specs.Reading.{is_free, is_free_in_line, parts, certificate_of};
ghost use Rattle.derivations.specs.Found.{shown};

use crate::reading::cert_text::CertText;
use crate::reading::cuts::{behind, cut};
use crate::reading::rows::{refutation, spaced};
use crate::reading::tokens::{LineFault, Written, number};
use crate::{Certificate, Finding, Lemma, Log, Refutation};
use olm_base::Many;
use std::alloc::Global;

// What the first line says of the finding.
#[derive(Clone, Copy)]
pub(crate) enum Kind {
    Chosen,
    Refused,
    Undecided,
}

fn word(line: &[u8]) -> Result<Kind, LineFault>
    ensures { result ≡ spec.word line.now }
{
    if line == b"certificate 1 chosen".as_slice() {
        Ok(Kind::Chosen)
    } else if line == b"certificate 1 refused".as_slice() {
        Ok(Kind::Refused)
    } else if line == b"certificate 1 undecided".as_slice() {
        Ok(Kind::Undecided)
    } else {
        Err(LineFault::Form)
    }
}

fn vars(line: &[u8]) -> Result<u32, LineFault>
    ensures { result ≡ spec.vars line.now }
{
    match behind(b"vars ", line) {
        Some(text) => number(text),
        None => Err(LineFault::Form),
    }
}

fn walk(alloc: Global, line: &[u8]) -> Result<Many<u32>, LineFault>
    ensures { Gives is_free_in_line (spec.walk line.now) result }
{
    match behind(b"walk", line) {
        Some(text) => spaced(alloc, text),
        None => Err(LineFault::Form),
    }
}

fn whole(alloc: Global, line: &[u8]) -> Result<Refutation, LineFault>
    ensures { Gives is_free_in_line (spec.whole line.now) result }
{
    match behind(b"refute-all ", line) {
        Some(text) => refutation(alloc, text),
        None => Err(LineFault::Form),
    }
}

fn end(line: &[u8]) -> Result<(), LineFault>
    ensures { result ≡ spec.end line.now }
{
    if line == b"end".as_slice() {
        Ok(())
    } else {
        Err(LineFault::Form)
    }
}

// The answer for the line with this number.
fn at<T: Drop>(line: u64, read: Result<T, LineFault>) -> Result<T, CertText>
    ensures { result ≡ spec.at line read }
{
    match read {
        Ok(value) => Ok(value),
        Err(LineFault::Form) => Err(CertText::BadLine { line }),
        Err(LineFault::Number) => Err(CertText::BadNumber { line }),
        Err(LineFault::Memory) => Err(CertText::Memory),
    }
}

// The next line, and the text behind it.
fn next_line(text: &[u8]) -> Result<(&[u8], &[u8]), CertText>
    ensures line { shown (λ next. (next.0.now, parts 10 next.1.now)) result ≡ spec.line_at (parts 10 text.now) }
    ensures shorter { IfOk result (λ next. length next.1.now < length text.now) }
{
    match cut(b'\n', text) {
        Some((line, after)) => Ok((line, after)),
        None => Err(CertText::CutShort),
    }
}

fn word_line(text: &[u8]) -> Result<(Kind, &[u8]), CertText>
    ensures line { shown (λ next. (next.0, parts 10 next.1.now)) result ≡ spec.line spec.word 1 (parts 10 text.now) }
    ensures shorter { IfOk result (λ next. length next.1.now < length text.now) }
{
    match next_line(text) {
        Ok((line, after)) => match at(1, word(line)) {
            Ok(word) => Ok((word, after)),
            Err(fault) => Err(fault),
        },
        Err(fault) => Err(fault),
    }
}

fn vars_line(text: &[u8]) -> Result<(u32, &[u8]), CertText>
    ensures line { shown (λ next. (next.0, parts 10 next.1.now)) result ≡ spec.line spec.vars 2 (parts 10 text.now) }
    ensures shorter { IfOk result (λ next. length next.1.now < length text.now) }
{
    match next_line(text) {
        Ok((line, after)) => match at(2, vars(line)) {
            Ok(count) => Ok((count, after)),
            Err(fault) => Err(fault),
        },
        Err(fault) => Err(fault),
    }
}

fn walk_line(alloc: Global, number: u64, text: &[u8]) -> Result<(Many<u32>, &[u8]), CertText>
    ensures line { Gives is_free (spec.line spec.walk number (parts 10 text.now)) (shown (λ next. (next.0, parts 10 next.1.now)) result) }
    ensures shorter { IfOk result (λ next. length next.1.now < length text.now) }
{
    match next_line(text) {
        Ok((line, after)) => match at(number, walk(alloc, line)) {
            Ok(walk) => Ok((walk, after)),
            Err(fault) => Err(fault),
        },
        Err(fault) => Err(fault),
    }
}

fn whole_line(alloc: Global, number: u64, text: &[u8]) -> Result<(Refutation, &[u8]), CertText>
    ensures line { Gives is_free (spec.line spec.whole number (parts 10 text.now)) (shown (λ next. (next.0, parts 10 next.1.now)) result) }
    ensures shorter { IfOk result (λ next. length next.1.now < length text.now) }
{
    match next_line(text) {
        Ok((line, after)) => match at(number, whole(alloc, line)) {
            Ok(refutation) => Ok((refutation, after)),
            Err(fault) => Err(fault),
        },
        Err(fault) => Err(fault),
    }
}

fn end_line(number: u64, text: &[u8]) -> Result<&[u8], CertText>
    ensures line { shown (λ next. (tt, parts 10 next.now)) result ≡ spec.line spec.end number (parts 10 text.now) }
    ensures shorter { IfOk result (λ next. length next.now < length text.now) }
{
    match next_line(text) {
        Ok((line, after)) => match at(number, end(line)) {
            Ok(()) => Ok(after),
            Err(fault) => Err(fault),
        },
        Err(fault) => Err(fault),
    }
}

// The item of a line that begins with these words; none of any other line.
fn item<T: Written + Drop>(
    alloc: Global,
    words: &[u8],
    number: u64,
    line: &[u8],
) -> Result<Option<T>, CertText>
    ensures { Gives is_free (spec.item words.now T.meaning number line.now) result }
{
    match behind(words, line) {
        Some(_) => match at(number, T::read(alloc, line)) {
            Ok(item) => Ok(Some(item)),
            Err(fault) => Err(fault),
        },
        None => Ok(None),
    }
}

// The next lines that begin with these words, and the text behind them.
fn rows<'t, T: Written + Drop>(
    alloc: Global,
    words: &[u8],
    number: u64,
    text: &'t [u8],
) -> Result<(Many<T>, &'t [u8]), CertText>
    requires { number + length text.now < 2 ^ 64 }
    ensures rows { Gives is_free (spec.lines words.now T.meaning number (parts 10 text.now)) (shown (λ next. (next.0, parts 10 next.1.now)) result) }
    ensures bound { IfOk result (λ next. length next.0 + length next.1.now ≤ length text.now) }
{
    let mut items = Many::new(alloc);
    let mut rest = text;
    let mut place = number;
    'rows: loop {
        match next_line(rest) {
            Ok((line, after)) => match item(alloc, words, place, line) {
                Ok(Some(item)) => {
                    items.push(item)?;
                    rest = after;
                    place += 1;
                }
                Ok(None) => return Ok((items, rest)),
                Err(fault) => return Err(fault),
            },
            Err(_) => return Ok((items, rest)),
        }
    }
}

// The lines of the finding, the number of the line behind them, and the text behind them.
fn finding(
    alloc: Global,
    word: Kind,
    number: u64,
    text: &[u8],
) -> Result<(Finding, u64, &[u8]), CertText>
    requires { number + length text.now < 2 ^ 64 }
    ensures lines { Gives is_free (spec.finding word number (parts 10 text.now)) (shown (λ next. (next.0, next.1, parts 10 next.2.now)) result) }
    ensures bound { IfOk result (λ next. next.1 + length next.2.now ≤ number + length text.now) }
{
    match word {
        Kind::Undecided => Ok((Finding::Undecided, number, text)),
        Kind::Refused => match whole_line(alloc, number, text) {
            Ok((refutation, after)) => Ok((Finding::Refused { refutation }, number + 1, after)),
            Err(fault) => Err(fault),
        },
        Kind::Chosen => chosen(alloc, number, text),
    }
}

fn chosen(alloc: Global, number: u64, text: &[u8]) -> Result<(Finding, u64, &[u8]), CertText>
    requires { number + length text.now < 2 ^ 64 }
    ensures lines { Gives is_free (spec.chosen number (parts 10 text.now)) (shown (λ next. (next.0, next.1, parts 10 next.2.now)) result) }
    ensures bound { IfOk result (λ next. next.1 + length next.2.now ≤ number + length text.now) }
{
    match walk_line(alloc, number, text) {
        Ok((walk, after)) => match rows(alloc, b"refute", number + 1, after) {
            Ok((refutations, after)) => {
                let behind = number + 1 + refutations.as_slice().len() as u64;
                Ok((Finding::Chosen { walk, refutations }, behind, after))
            }
            Err(fault) => Err(fault),
        },
        Err(fault) => Err(fault),
    }
}

// The last line, and nothing behind it.
fn ended(number: u64, text: &[u8]) -> Result<(), CertText>
    requires { number + length text.now < 2 ^ 64 }
    ensures { result ≡ spec.ended number (parts 10 text.now) }
{
    match end_line(number, text) {
        Ok([]) => Ok(()),
        Ok(_) => Err(CertText::BadLine { line: number + 1 }),
        Err(fault) => Err(fault),
    }
}

// The lines behind the first two.
fn body(alloc: Global, word: Kind, vars: u32, text: &[u8]) -> Result<Certificate, CertText>
    requires { 3 + length text.now < 2 ^ 64 }
    ensures { Gives is_free (spec.body word vars (parts 10 text.now)) result }
{
    match rows::<Lemma>(alloc, b"lemma", 3, text) {
        Ok((lemmas, after)) => {
            let number = 3 + lemmas.as_slice().len() as u64;
            match finding(alloc, word, number, after) {
                Ok((finding, number, after)) => match ended(number, after) {
                    Ok(()) => Ok(Certificate {
                        vars,
                        log: Log { lemmas },
                        finding,
                    }),
                    Err(fault) => Err(fault),
                },
                Err(fault) => Err(fault),
            }
        }
        Err(fault) => Err(fault),
    }
}

/// The certificate that the text writes, or its first fault.
pub(crate) fn certificate(alloc: Global, text: &[u8]) -> Result<Certificate, CertText>
    ensures { Gives is_free (certificate_of text.now) result }
{
    match word_line(text) {
        Ok((word, after)) => match vars_line(after) {
            Ok((vars, after)) => body(alloc, word, vars, after),
            Err(fault) => Err(fault),
        },
        Err(fault) => Err(fault),
    }
}
