// The pieces of a range's text: operators, and the words beside them.

ghost use Rattle.std.specs.Prelude.{◌≡◌, ◌==◌, ◌<◌, ◌≤◌, ◌^◌, ◌∷◌, [], IfNone, true, IfOk, IfSome, Result};
ghost use Rattle.std.specs.Char.{is_ascii_digit};
ghost use Rattle.std.specs.List.{list_all, list_any, position, slice_split};
ghost use Rattle.std.specs.Option.{option_map};
ghost use Rattle.std.specs.Result.{result_ok};
ghost use Rattle.semver.specs.Identifiers.{parts_of};
ghost use Rattle.semver.specs.Parse.{version_parts};
ghost use Rattle.olm_base.specs.Outcome.{Gives};
ghost use Rattle.version_ranges.specs.Faults.{is_free};
ghost use Rattle.version_ranges.specs.Shown.{shown_word};
ghost use Rattle.version_ranges.specs.Words as spec;

use crate::condition::{Operand, Operator, Wildcard};
use crate::fault::RangeFault;
use olm_base::Memory;
use semver::{Error, Version};
use std::alloc::{AllocError, Global};
use std::str;

pub(crate) fn operator_of(run: &[u8]) -> Option<Operator>
    ensures { result ≡ spec.operator_of run.now }
{
    match run {
        b"" | b"=" | b"==" => Some(Operator::Equal),
        b"!" | b"!=" => Some(Operator::Unequal),
        b"<" => Some(Operator::Below),
        b"<=" => Some(Operator::AtMost),
        b">" => Some(Operator::Above),
        b">=" => Some(Operator::AtLeast),
        _ => None,
    }
}

fn are_digits(text: &[u8]) -> bool
    ensures { result ≡ list_all is_ascii_digit text.now }
{
    text.iter().all(|byte| byte.is_ascii_digit())
}

// Digits, at least one, with no zero before others.
fn is_plain(text: &[u8]) -> bool
    ensures { result ≡ spec.is_plain text.now }
{
    match text {
        [] => false,
        [first, more @ ..] => are_digits(text) && (*first != b'0' || more.is_empty()),
    }
}

fn value_after(value: u64, digit: u8) -> Option<u64>
    requires { 48 ≤ digit }
    ensures some { IfSome result (λ longer. (longer ≡ spec.value_after value digit) × (longer < 2 ^ 64)) }
    ensures none { IfNone result (2 ^ 64 ≤ spec.value_after value digit) }
{
    value.checked_mul(10)?.checked_add(u64::from(digit - b'0'))
}

fn value_of(digits: &[u8]) -> Option<u64>
    requires { list_all is_ascii_digit digits.now ≡ true }
    ensures some { IfSome result (λ value. (value ≡ spec.value_of digits.now) × (value < 2 ^ 64)) }
    ensures none { IfNone result (2 ^ 64 ≤ spec.value_of digits.now) }
{
    let mut value: u64 = 0;
    'digits: for digit in digits {
        match value_after(value, *digit) {
            Some(longer) => value = longer,
            None => return None,
        }
    }
    Some(value)
}

fn number_of(text: &[u8]) -> Option<u64>
    ensures { result ≡ spec.number_of text.now }
{
    if is_plain(text) { value_of(text) } else { None }
}

fn dot_at(word: &[u8]) -> Option<usize>
    ensures { result ≡ position spec.is_dot word.now }
{
    word.iter().position(|byte| *byte == b'.')
}

// What stands before the first dot, and what stands after it.
fn split_dot(word: &[u8]) -> Option<(&[u8], &[u8])>
    ensures none { IfNone result (slice_split spec.is_dot word.now ≡ word.now ∷ []) }
    ensures some { IfSome result (λ pieces. slice_split spec.is_dot word.now ≡ pieces.0.now ∷ slice_split spec.is_dot pieces.1.now) }
{
    match dot_at(word) {
        Some(at) => Some((&word[..at], &word[at + 1..])),
        None => None,
    }
}

fn of_minor(major: &[u8], minor: &[u8]) -> Option<Wildcard>
    ensures { result ≡ spec.of_minor major.now minor.now }
{
    Some(Wildcard::OfMinor(number_of(major)?, number_of(minor)?))
}

fn of_major(major: &[u8]) -> Option<Wildcard>
    ensures { result ≡ spec.of_major major.now }
{
    Some(Wildcard::OfMajor(number_of(major)?))
}

fn is_x(piece: &[u8]) -> bool
    ensures { result ≡ spec.is_x piece.now }
{
    piece == b"x".as_slice()
}

fn of_two(major: &[u8], last: &[u8]) -> Option<Wildcard>
    ensures { result ≡ spec.wildcard_of_pieces (major.now ∷ last.now ∷ []) }
{
    if is_x(last) { of_major(major) } else { None }
}

fn of_three(major: &[u8], middle: &[u8], last: &[u8]) -> Option<Wildcard>
    ensures { result ≡ spec.wildcard_of_pieces (major.now ∷ middle.now ∷ last.now ∷ []) }
{
    if !is_x(last) {
        None
    } else if is_x(middle) {
        of_major(major)
    } else {
        of_minor(major, middle)
    }
}

#[tactic(auto, using(crate::proofs::Pieces::four_pieces))]
fn wildcard_of(word: &[u8]) -> Option<Wildcard>
    ensures { result ≡ spec.wildcard_of word.now }
{
    match split_dot(word) {
        None => None,
        Some((major, rest)) => match split_dot(rest) {
            None => of_two(major, rest),
            Some((middle, last)) => match split_dot(last) {
                None => of_three(major, middle, last),
                Some(_) => None,
            },
        },
    }
}

// The version that a word writes, if it writes one.
#[tactic(auto, unfolding(crate::specs::Words::version_of))]
fn version_of(alloc: Global, word: &[u8]) -> Result<Option<Version>, Memory>
    ensures { IfOk result (λ version. option_map parts_of version ≡ spec.version_of word.now) }
{
    match str::from_utf8(word) {
        Err(_) => Ok(None),
        Ok(text) => match Version::parse(alloc, text) {
            Ok(version) => Ok(Some(version)),
            Err(error) => {
                if error == Error::from(AllocError) {
                    Err(Memory)
                } else {
                    Ok(None)
                }
            }
        },
    }
}

fn are_wildcard_bytes(word: &[u8]) -> bool
    ensures { result ≡ list_all spec.is_wildcard_byte word.now }
{
    word.iter().all(|byte| byte.is_ascii_digit() || *byte == b'.' || *byte == b'x')
}

fn has_x(word: &[u8]) -> bool
    ensures { result ≡ list_any (λ byte. byte == 120) word.now }
{
    word.iter().any(|byte| *byte == b'x')
}

fn word_fault(word: &[u8], place: usize) -> RangeFault
    ensures { result ≡ spec.word_fault place word.now }
{
    let at = place as u64;
    if are_wildcard_bytes(word) && has_x(word) {
        RangeFault::BadWildcard { at }
    } else {
        RangeFault::BadVersion { at }
    }
}

/// What the word at this place stands for.
pub(crate) fn read_word(alloc: Global, word: &[u8], place: usize) -> Result<Operand, RangeFault>
    ensures { Gives is_free (spec.read_word place word.now) (shown_word result) }
{
    match version_of(alloc, word) {
        Err(Memory) => Err(RangeFault::Memory),
        Ok(Some(version)) => Ok(Operand::Version(version)),
        Ok(None) => match wildcard_of(word) {
            Some(wildcard) => Ok(Operand::Wildcard(wildcard)),
            None => Err(word_fault(word, place)),
        },
    }
}
