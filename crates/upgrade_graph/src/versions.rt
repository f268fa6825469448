// The versions of bundles.
ghost use Rattle.std.specs.Prelude.{◌≡◌, Some, true, IfOk, IsSome};
ghost use Rattle.std.specs.Option.{option_and_then};
ghost use Rattle.semver.specs.Identifiers.{parts_of};
ghost use Rattle.version_ranges.specs.Words.{version_of};
ghost use Rattle.fbc_types.specs.Texts as texts;
ghost use Rattle.upgrade_graph.specs.Tables.{under};

use fbc_types::{Bundle, own_version};
use olm_base::{Memory, Name};
use semver::Version;
use std::alloc::Global;
use std::collections::BTreeMap;

/// The version that a text writes. The only error is want of memory, since the text writes one.
#[tactic(auto, unfolding(version_ranges::specs::Words::version_of))]
fn read_version(alloc: Global, text: &str) -> Result<Version, Memory>
    requires { texts.is_version text.now ≡ true }
    ensures { IfOk result (λ version. version_of text.now ≡ Some (parts_of version)) }
{
    match Version::parse(alloc, text) {
        Ok(version) => Ok(version),
        Err(_) => Err(Memory),
    }
}

/// The version of a bundle that has one.
fn version_in(alloc: Global, bundle: &Bundle) -> Result<Version, Memory>
    requires { IsSome (texts.version_in bundle.now) }
    ensures { IfOk result (λ version. texts.version_in bundle.now ≡ Some (parts_of version)) }
{
    match own_version(bundle) {
        Some(text) => read_version(alloc, text.as_str()),
        None => unreachable!(),
    }
}

/// The version of the bundle that a table has under this name, which has one.
pub(crate) fn version_named(
    alloc: Global,
    table: &BTreeMap<Name, &Bundle>,
    name: &Name,
) -> Result<Version, Memory>
    requires { IsSome (option_and_then texts.version_in (under table.now.entries name.now)) }
    ensures { IfOk result (λ version. option_and_then texts.version_in (under table.now.entries name.now) ≡ Some (parts_of version)) }
{
    match table.get(name).copied() {
        Some(bundle) => version_in(alloc, bundle),
        None => unreachable!(),
    }
}
