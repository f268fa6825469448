// The parts of a line: numbers, literals, hints and clauses.
ghost use Rattle.std.specs.Prelude.{◌≡◌, ◌<◌, ◌≤◌, ◌^◌, [], List, ℕ, Result, true, false, IfNone, IfSome, Some, None};
ghost use Rattle.std.specs.Char.{is_ascii_digit};
ghost use Rattle.std.specs.List.{list_all};
ghost use Rattle.olm_base.specs.Outcome.{Gives};
ghost use Rattle.derivations.specs.Reading as spec;
ghost use Rattle.derivations.specs.Reading.{is_free_in_line};

use olm_base::Memory;
use op_constraints::{Lit, VarId};
use std::alloc::Global;

/// Why a line can't be read.
#[derive(Clone, Copy)]
pub(crate) enum LineFault {
    Form,
    Number,
    Memory,
}

impl From<Memory> for LineFault {
    ghost use Rattle.derivations.specs.declared.reading.tokens.LineFault.TheVariants.{Memory as NoMemory};

    ghost from_gives = { λ _ e. e ≡ NoMemory };

    fn from(_: Memory) -> LineFault {
        LineFault::Memory
    }
}

/// What one part of a text, or one line, is read as.
pub(crate) trait Written {
    ghost use Rattle.derivations.specs.declared.reading.tokens.LineFault.{LineFault};

    // what is read
    ghost meaning: { List ℕ → Result Self LineFault };

    fn read(alloc: Global, text: &[u8]) -> Result<Self, LineFault>
        ensures { Gives is_free_in_line (meaning text.now) result };
}

fn are_digits(text: &[u8]) -> bool
    ensures { result ≡ list_all is_ascii_digit text.now }
{
    text.iter().all(|byte| byte.is_ascii_digit())
}

// Whether no digit stands behind a zero that begins the number.
fn is_plain(digits: &[u8]) -> bool
    ensures { result ≡ spec.is_plain digits.now }
{
    match digits {
        [] => true,
        [first, more @ ..] => *first != b'0' || more.is_empty(),
    }
}

fn value_after(value: u32, digit: u8) -> Option<u32>
    requires { 48 ≤ digit }
    ensures some { IfSome result (λ longer. (longer ≡ spec.value_after value digit) × (longer < 2 ^ 32)) }
    ensures none { IfNone result (2 ^ 32 ≤ spec.value_after value digit) }
{
    value.checked_mul(10)?.checked_add(u32::from(digit - b'0'))
}

fn value_of(digits: &[u8]) -> Option<u32>
    requires { list_all is_ascii_digit digits.now ≡ true }
    ensures some { IfSome result (λ value. (value ≡ spec.value_of digits.now) × (value < 2 ^ 32)) }
    ensures none { IfNone result (2 ^ 32 ≤ spec.value_of digits.now) }
{
    let mut value: u32 = 0;
    'digits: for digit in digits {
        match value_after(value, *digit) {
            Some(longer) => value = longer,
            None => return None,
        }
    }
    Some(value)
}

pub(crate) fn number(digits: &[u8]) -> Result<u32, LineFault>
    ensures { result ≡ spec.number digits.now }
{
    if digits.is_empty() || !are_digits(digits) {
        return Err(LineFault::Form);
    }
    if !is_plain(digits) {
        return Err(LineFault::Number);
    }
    match value_of(digits) {
        Some(value) => Ok(value),
        None => Err(LineFault::Number),
    }
}

impl Written for u32 {
    ghost meaning = { spec.number };

    fn read(_: Global, text: &[u8]) -> Result<u32, LineFault> {
        number(text)
    }
}

impl Written for VarId {
    ghost meaning = { spec.number };

    fn read(_: Global, text: &[u8]) -> Result<VarId, LineFault> {
        Ok(VarId(number(text)?))
    }
}

fn signed(positive: bool, digits: &[u8]) -> Result<Lit, LineFault>
    ensures { result ≡ spec.made (λ v. record { var = v; positive = positive }) (spec.number digits.now) }
{
    match number(digits) {
        Ok(value) => Ok(Lit {
            var: VarId(value),
            positive,
        }),
        Err(fault) => Err(fault),
    }
}

impl Written for Lit {
    ghost meaning = { spec.lit };

    fn read(_: Global, text: &[u8]) -> Result<Lit, LineFault> {
        match text {
            [] => Err(LineFault::Form),
            [sign, digits @ ..] => match *sign {
                b'+' => signed(true, digits),
                b'-' => signed(false, digits),
                _ => Err(LineFault::Form),
            },
        }
    }
}

/// Two parts of a line.
pub(crate) fn both<A: Drop, B: Drop>(
    first: Result<A, LineFault>,
    second: Result<B, LineFault>,
) -> Result<(A, B), LineFault>
    ensures { result ≡ spec.both (λ x y. (x, y)) first second }
{
    match first {
        Ok(x) => match second {
            Ok(y) => Ok((x, y)),
            Err(fault) => Err(fault),
        },
        Err(LineFault::Number) => match second {
            Ok(_) => Err(LineFault::Number),
            Err(fault) => Err(fault),
        },
        Err(fault) => Err(fault),
    }
}
