// What one condition asks of a version.

ghost use Rattle.std.specs.Prelude.{◌≡◌, ◌+◌, IfOk};
ghost use Rattle.std.specs.Ordering.{nat_cmp};
ghost use Rattle.semver.specs.Identifiers.{parts_of};
ghost use Rattle.version_ranges.specs.Versions.{precedence, release};
ghost use Rattle.version_ranges.specs.Conditions as spec;
ghost use Rattle.version_ranges.specs.Shown as shown;

use semver::{Prerelease, Version};
use std::alloc::AllocError;
use std::cmp::Ordering;
use std::marker::Model;

/// How a version has to stand to a condition's operand.
#[derive(Clone, Copy, Debug, PartialEq, Eq)]
pub(crate) enum Operator {
    Equal,
    Unequal,
    Below,
    AtMost,
    Above,
    AtLeast,
}

/// All versions of a major number, as `1.x`, or of a major and a minor number, as `1.2.x`.
#[derive(Clone, Copy, Debug, PartialEq, Eq)]
pub(crate) enum Wildcard {
    OfMajor(u64),
    OfMinor(u64, u64),
}

/// What a condition compares a version with.
#[derive(Debug, Drop)]
pub(crate) enum Operand {
    Version(Version),
    Wildcard(Wildcard),
}

/// An operator and its operand.
#[derive(Debug, Drop)]
pub(crate) struct Condition {
    operator: Operator,
    operand: Operand,
}

impl Model for Condition {
    ghost use Rattle.version_ranges.specs.Terms.{Term};

    ghost Value = { Term };

    ghost use Rattle.version_ranges.specs.Shown.{bound_of};

    ghost view = { λ condition. record { operator = condition.operator; bound = bound_of condition.operand } };
}

fn cmp_release(version: &Version, major: u64, minor: u64, patch: u64) -> Ordering
    ensures { result ≡ precedence (parts_of version.now) (release major minor patch) }
{
    version.cmp_precedence(&Version::new(major, minor, patch))
}

// Where a version stands to the first version of a wildcard.
fn cmp_start(version: &Version, wildcard: Wildcard) -> Ordering
    ensures { result ≡ precedence (parts_of version.now) (spec.start_of wildcard) }
{
    match wildcard {
        Wildcard::OfMajor(major) => cmp_release(version, major, 0, 0),
        Wildcard::OfMinor(major, minor) => cmp_release(version, major, minor, 0),
    }
}

// Where a number stands to the one after another, which may be above 64 bits.
fn cmp_next(number: u64, other: u64) -> Ordering
    ensures { result ≡ nat_cmp number (other + 1) }
{
    match other.checked_add(1) {
        Some(next) => number.cmp(&next),
        None => Ordering::Less,
    }
}

// Where a version stands to the end of a wildcard.
fn cmp_end(version: &Version, wildcard: Wildcard) -> Ordering
    ensures { result ≡ precedence (parts_of version.now) (spec.end_of wildcard) }
{
    let (to_major, to_minor) = match wildcard {
        Wildcard::OfMajor(major) => (cmp_next(version.major, major), version.minor.cmp(&0)),
        Wildcard::OfMinor(major, minor) => {
            (version.major.cmp(&major), cmp_next(version.minor, minor))
        }
    };
    to_major
        .then(to_minor)
        .then(version.patch.cmp(&0))
        .then(version.pre.cmp(&Prerelease::empty()))
}

fn meets_version(operator: Operator, order: Ordering) -> bool
    ensures { result ≡ spec.meets_version operator order }
{
    match operator {
        Operator::Equal => order.is_eq(),
        Operator::Unequal => order.is_ne(),
        Operator::Below => order.is_lt(),
        Operator::AtMost => order.is_le(),
        Operator::Above => order.is_gt(),
        Operator::AtLeast => order.is_ge(),
    }
}

fn meets_span(operator: Operator, to_start: Ordering, to_end: Ordering) -> bool
    ensures { result ≡ spec.meets_span operator to_start to_end }
{
    match operator {
        Operator::Equal => to_start.is_ge() && to_end.is_lt(),
        Operator::Unequal => to_start.is_lt() || to_end.is_ge(),
        Operator::Below => to_start.is_lt(),
        Operator::AtMost => to_end.is_lt(),
        Operator::Above => to_end.is_ge(),
        Operator::AtLeast => to_start.is_ge(),
    }
}

impl Condition {
    pub(crate) fn new(operator: Operator, operand: Operand) -> Condition
        ensures { result ≡ record { operator = operator; bound = shown.bound_of operand } }
    {
        Condition { operator, operand }
    }

    pub(crate) fn holds(&self, version: &Version) -> bool
        ensures { result ≡ spec.meets self.now (parts_of version.now) }
    {
        match &self.operand {
            Operand::Version(bound) => meets_version(self.operator, version.cmp_precedence(bound)),
            Operand::Wildcard(wildcard) => meets_span(
                self.operator,
                cmp_start(version, *wildcard),
                cmp_end(version, *wildcard),
            ),
        }
    }
}

// A version with the same numbers and texts.
fn clone_version(version: &Version) -> Result<Version, AllocError>
    ensures { IfOk result (λ copy. parts_of copy ≡ parts_of version.now) }
{
    Ok(version.clone()?)
}

impl Clone for Condition {
    ghost use Rattle.std.specs.Prelude.{◌≡◌};

    ghost is_clone = { λ condition copy. copy ≡ condition };

    fn clone(&self) -> Result<Condition, AllocError> {
        match &self.operand {
            Operand::Version(version) => Ok(Condition {
                operator: self.operator,
                operand: Operand::Version(clone_version(version)?),
            }),
            Operand::Wildcard(wildcard) => Ok(Condition {
                operator: self.operator,
                operand: Operand::Wildcard(*wildcard),
            }),
        }
    }
}
