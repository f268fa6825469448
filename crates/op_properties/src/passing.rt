// Which offers meet what is asked.
ghost use Rattle.std.specs.Prelude.{◌≡◌};
ghost use Rattle.std.specs.List.{list_all, list_any};
ghost use Rattle.op_properties.specs.Offers.{shown};
ghost use Rattle.op_properties.specs.Passing as spec;

use crate::{Offer, Requirement};

#[cycle(passing)]
fn all_pass(requirements: &[Requirement], offer: &Offer) -> bool
    ensures { result ≡ list_all (λ member. spec.passes member (shown offer.now)) requirements.now }
{
    'members: for member in requirements {
        if !passes(member, offer) {
            return false;
        }
    }
    true
}

#[cycle(passing)]
fn one_passes(requirements: &[Requirement], offer: &Offer) -> bool
    ensures { result ≡ list_any (λ member. spec.passes member (shown offer.now)) requirements.now }
{
    'members: for member in requirements {
        if passes(member, offer) {
            return true;
        }
    }
    false
}

/// Whether the offer meets the requirement. It takes no memory.
#[cycle(passing)]
#[tactic(auto, using(crate::proofs::Forms::package_passes, crate::proofs::Forms::kind_passes, crate::proofs::Forms::all_passes, crate::proofs::Forms::any_passes, crate::proofs::Forms::not_passes, crate::proofs::Forms::unsupported_passes))]
pub fn passes(requirement: &Requirement, offer: &Offer) -> bool
    ensures { result ≡ spec.passes requirement.now (shown offer.now) }
{
    match requirement {
        Requirement::Package { name, range } => offer.is_of(name) && range.holds(&offer.version),
        Requirement::Kind(kind) => offer.provides(kind),
        Requirement::All(members) => all_pass(members.as_slice(), offer),
        Requirement::Any(members) => one_passes(members.as_slice(), offer),
        Requirement::Not(members) => !one_passes(members.as_slice(), offer),
        Requirement::Unsupported => false,
    }
}
