// Ranges of versions.

ghost use Rattle.std.specs.Prelude.{◌≡◌};
ghost use Rattle.std.specs.List.{list_all, list_any};
ghost use Rattle.olm_base.specs.Outcome.{Gives};
ghost use Rattle.semver.specs.Identifiers.{parts_of};
ghost use Rattle.version_ranges.specs.Conditions.{holds_of, meets};
ghost use Rattle.version_ranges.specs.Faults.{is_free};
ghost use Rattle.version_ranges.specs.Reading.{reading};

use crate::condition::Condition;
use crate::fault::RangeFault;
use crate::parsing::read_alternatives;
use olm_base::Many;
use semver::Version;
use std::alloc::{AllocError, Global};
use std::marker::Model;

/// A range of versions: alternatives, of which one has to hold, each of conditions, which all have to hold.
/// Contracts see it as the list of its alternatives, each the list of its conditions.
#[derive(Debug, Drop)]
pub struct Range {
    alternatives: Many<Many<Condition>>,
}

impl Model for Range {
    ghost use Rattle.std.specs.Prelude.{List};
    ghost use Rattle.version_ranges.specs.Terms.{Term};

    ghost Value = { List (List Term) };

    ghost view = { λ range. range.alternatives };
}

fn all_hold(conditions: &[Condition], version: &Version) -> bool
    ensures { result ≡ list_all (λ term. meets term (parts_of version.now)) conditions.now }
{
    conditions.iter().all(|condition| condition.holds(version))
}

fn one_holds(alternatives: &[Many<Condition>], version: &Version) -> bool
    ensures { result ≡ holds_of alternatives.now (parts_of version.now) }
{
    alternatives
        .iter()
        .any(|conditions| all_hold(conditions.as_slice(), version))
}

impl Range {
    /// Reads a range from its text, such as `>=1.0.0 <2.0.0 || 3.x`.
    ///
    /// Alternatives stand between `||`, and conditions beside each other; only the space is a blank. A condition
    /// is an operator (none, `<`, `<=`, `>`, `>=`, `=`, `==`, `!` or `!=`) and a version or a wildcard (`1.x`,
    /// `1.x.x` or `1.2.x`). The fault is the leftmost one, at its byte.
    pub fn parse(alloc: Global, text: &str) -> Result<Range, RangeFault>
        ensures { Gives is_free (reading text.now) result }
    {
        match read_alternatives(alloc, text.as_bytes()) {
            Ok(alternatives) => Ok(Range { alternatives }),
            Err(fault) => Err(fault),
        }
    }

    /// Whether all conditions of some alternative are true of the version. It takes no memory.
    pub fn holds(&self, version: &Version) -> bool
        ensures { result ≡ holds_of self.now (parts_of version.now) }
    {
        one_holds(self.alternatives.as_slice(), version)
    }
}

impl Clone for Range {
    ghost use Rattle.std.specs.Prelude.{◌≡◌};

    ghost is_clone = { λ range copy. copy ≡ range };

    fn clone(&self) -> Result<Range, AllocError> {
        Ok(Range {
            alternatives: self.alternatives.clone()?,
        })
    }
}
