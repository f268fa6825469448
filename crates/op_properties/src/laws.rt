//! What holds of all requirements and offers.

ghost use Rattle.op_properties.specs.Laws as law;

use fbc_types::bundles_are_read;

/// A requirement is met exactly by these rules, whatever stands in it.
pub fn passes_law()
    ensures package { law.PackagePasses }
    ensures kind { law.KindPasses }
    ensures all { law.AllPass }
    ensures any { law.AnyPasses }
    ensures not { law.NonePasses }
    ensures unsupported { law.UnsupportedPasses }
{}

/// A bundle's kinds are those that its properties give, and each stands once.
pub fn kinds_law()
    ensures once { law.KindsAreOnce }
    ensures same { law.KindsAreGiven }
{}

/// A constraint writes a requirement of its own form, whatever stands in it.
pub fn constraint_law()
    ensures package { law.PackageIsWritten }
    ensures kind { law.KindIsWritten }
    ensures all { law.AllIsWritten }
    ensures any { law.AnyIsWritten }
    ensures not { law.NotIsWritten }
    ensures cel { law.CelIsUnsupported }
    ensures unknown { law.UnknownIsUnsupported }
{}

/// What the properties of two lists ask for is, of both lists together, the one behind the other.
pub fn order_law()
    ensures { law.AsksInOrder }
{}

/// In a catalog that breaks no rule each bundle has its requirements and its offer.
pub fn read_law()
    ensures { law.EachBundleIsRead }
{
    bundles_are_read();
}
