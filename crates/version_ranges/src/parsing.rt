// The reading of a range's text: conditions, alternatives, and the end of the text.

ghost use Rattle.std.specs.Prelude.{◌≡◌, ◌≢◌, ◌<◌, ◌≤◌, ◌+◌, ◌^◌, IfOk, length};
ghost use Rattle.std.specs.List.{prefix_len, take_while};
ghost use Rattle.olm_base.specs.Outcome.{Gives};
ghost use Rattle.version_ranges.specs.Faults.{is_free};
ghost use Rattle.version_ranges.specs.Words.{is_operator_byte, is_space, is_word_byte};
ghost use Rattle.version_ranges.specs.Reading as spec;

use crate::condition::Condition;
use crate::fault::RangeFault;
use crate::words::{operator_of, read_word};
use olm_base::{Many, Memory};
use std::alloc::Global;

fn is_operator_byte(byte: u8) -> bool
    ensures { result ≡ is_operator_byte byte }
{
    byte == b'<' || byte == b'>' || byte == b'=' || byte == b'!'
}

fn is_word_byte(byte: u8) -> bool
    ensures { result ≡ is_word_byte byte }
{
    !(byte == b' ' || byte == b'|' || is_operator_byte(byte))
}

fn count_spaces(rest: &[u8]) -> usize
    ensures count { result ≡ prefix_len is_space rest.now }
    ensures within { result ≤ length rest.now }
{
    rest.iter().take_while(|byte| **byte == b' ').count()
}

fn count_operator_bytes(rest: &[u8]) -> usize
    ensures count { result ≡ prefix_len is_operator_byte rest.now }
    ensures within { result ≤ length rest.now }
{
    rest.iter()
        .take_while(|byte| is_operator_byte(**byte))
        .count()
}

fn count_word_bytes(rest: &[u8]) -> usize
    ensures count { result ≡ prefix_len is_word_byte rest.now }
    ensures within { result ≤ length rest.now }
{
    rest.iter().take_while(|byte| is_word_byte(**byte)).count()
}

fn operator_run(rest: &[u8]) -> &[u8]
    ensures run { result.now ≡ spec.operator_run rest.now }
    ensures within { length result.now ≤ length rest.now }
{
    &rest[..count_operator_bytes(rest)]
}

fn word_start(rest: &[u8]) -> usize
    ensures start { result ≡ spec.word_start rest.now }
    ensures within { result ≤ length rest.now }
{
    let run = operator_run(rest).len();
    run + count_spaces(&rest[run..])
}

fn word_run(rest: &[u8]) -> &[u8]
    ensures run { result.now ≡ spec.word_run rest.now }
    ensures within { spec.word_start rest.now + length result.now ≤ length rest.now }
{
    let behind = &rest[word_start(rest)..];
    &behind[..count_word_bytes(behind)]
}

fn ends(rest: &[u8]) -> bool
    ensures { result ≡ spec.ends rest.now }
{
    match rest {
        [] => true,
        [_] => false,
        [byte, next, ..] => *byte == b'|' && *next == b'|',
    }
}

// The condition that stands next, and the number of its bytes.
#[tactic(auto, unfolding(crate::specs::Reading::condition_at))]
fn read_condition(
    alloc: Global,
    rest: &[u8],
    place: usize,
) -> Result<(Condition, usize), RangeFault>
    requires { place + length rest.now < 2 ^ 64 }
    ensures answer { Gives is_free (spec.condition_at place rest.now) result }
    ensures within { IfOk result (λ read. read.1 ≤ length rest.now) }
{
    let Some(operator) = operator_of(operator_run(rest)) else {
        return Err(RangeFault::BadOperator { at: place as u64 });
    };
    let start = word_start(rest);
    let word = word_run(rest);
    match read_word(alloc, word, place + start) {
        Ok(operand) => Ok((Condition::new(operator, operand), start + word.len())),
        Err(fault) => Err(fault),
    }
}

// The conditions up to the end of their alternative, and the number of bytes before that end.
fn read_conditions(
    alloc: Global,
    rest: &[u8],
    place: usize,
) -> Result<(Many<Condition>, usize), RangeFault>
    requires { place + length rest.now < 2 ^ 64 }
    ensures answer { Gives is_free (spec.conditions place rest.now) result }
    ensures within { IfOk result (λ read. read.1 ≤ length rest.now) }
    ensures bars { IfOk result (λ read. read.1 ≢ length rest.now → read.1 + 2 ≤ length rest.now) }
{
    let mut conditions = Many::new(alloc);
    let mut at: usize = 0;
    'conditions: loop {
        let start = at + count_spaces(&rest[at..]);
        let here = &rest[start..];
        if ends(here) {
            return Ok((conditions, start));
        }
        match read_condition(alloc, here, place + start) {
            Ok((condition, count)) => {
                match conditions.push(condition) {
                    Ok(()) => {}
                    Err(Memory) => return Err(RangeFault::Memory),
                }
                at = start + count;
            }
            Err(fault) => return Err(fault),
        }
    }
}

// The alternative that stands next, and the number of bytes before its end.
fn read_alternative(
    alloc: Global,
    rest: &[u8],
    place: usize,
) -> Result<(Many<Condition>, usize), RangeFault>
    requires { place + length rest.now < 2 ^ 64 }
    ensures answer { Gives is_free (spec.alternative_at place rest.now) result }
    ensures within { IfOk result (λ read. read.1 ≤ length rest.now) }
    ensures bars { IfOk result (λ read. read.1 ≢ length rest.now → read.1 + 2 ≤ length rest.now) }
{
    match read_conditions(alloc, rest, place) {
        Ok((conditions, count)) => {
            if conditions.as_slice().is_empty() {
                return Err(RangeFault::Empty {
                    at: (place + count) as u64,
                });
            }
            Ok((conditions, count))
        }
        Err(fault) => Err(fault),
    }
}

/// The alternatives of a range's text.
pub(crate) fn read_alternatives(
    alloc: Global,
    text: &[u8],
) -> Result<Many<Many<Condition>>, RangeFault>
    ensures { Gives is_free (spec.reading text.now) result }
{
    let mut alternatives = Many::new(alloc);
    let mut at: usize = 0;
    'alternatives: loop {
        match read_alternative(alloc, &text[at..], at) {
            Ok((conditions, count)) => {
                match alternatives.push(conditions) {
                    Ok(()) => {}
                    Err(Memory) => return Err(RangeFault::Memory),
                }
                let end = at + count;
                if end == text.len() {
                    return Ok(alternatives);
                }
                at = end + 2;
            }
            Err(fault) => return Err(fault),
        }
    }
}
