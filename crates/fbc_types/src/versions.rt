// The version of a bundle.
ghost use Rattle.std.specs.Prelude.{◌≡◌};
ghost use Rattle.std.specs.Option.{option_copied, option_to_list};
ghost use Rattle.fbc_types.specs.Texts as spec;

use crate::{Bundle, Property};
use olm_base::{Name, Text};

/// The version that a property gives for this package.
fn version_for<'a>(owner: &Name, property: &'a Property) -> Option<&'a Text>
    ensures { option_to_list (option_copied result) ≡ spec.versions_for owner.now property.now }
{
    match property {
        Property::Package { name, version } => { if name == owner { Some(version) } else { None } }
        Property::Kind(_) => None,
        Property::NeedKind(_) => None,
        Property::NeedPackage { .. } => None,
        Property::Constraint(_) => None,
        Property::Manifest { .. } => None,
        Property::Other { .. } => None,
    }
}

/// The text of the version that a bundle gives for its package, the first one where it gives more, and None where it
/// gives none. In a catalog that breaks no rule it gives exactly one, which is a version.
pub fn own_version(bundle: &Bundle) -> Option<&Text>
    ensures { option_copied result ≡ spec.own_version bundle.now }
{
    for property in bundle.properties.as_slice() {
        if let Some(version) = version_for(&bundle.package, property) {
            return Some(version);
        }
    }
    None
}
