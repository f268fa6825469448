// The keys of install plans.
ghost use Rattle.std.specs.Prelude.{◌≡◌, ◌++◌, true, IfOk, codes};
ghost use Rattle.std.specs.Fmt.{decimal};
ghost use Rattle.olm_base.specs.Names.{is_name};
ghost use Rattle.lawful_history.specs.Installing as installing;

use cluster_objects::Key;
use olm_base::{Memory, Name, NameFault, Text};
use std::alloc::Global;

// The name of bytes that are one.
fn given_name(alloc: Global, text: &[u8]) -> Result<Name, Memory>
    requires { is_name text.now ≡ true }
    ensures { IfOk result (λ name. name ≡ text.now) }
{
    match Name::new(alloc, text) {
        Ok(name) => Ok(name),
        Err(NameFault::Memory) => Err(Memory),
        Err(NameFault::Bad) => unreachable!(),
    }
}

#[tactic(auto, using(crate::proofs::InstallNames::install_is_name))]
fn install_name(alloc: Global, number: u64) -> Result<Name, Memory>
    ensures { IfOk result (λ name. name ≡ codes "install-" ++ decimal number) }
{
    let digits = number.to_string(alloc)?;
    let mut text = Vec::from_slice(alloc, b"install-")?;
    text.extend_from_slice(digits.as_bytes())?;
    given_name(alloc, text.as_slice())
}

/// The key of the plan of a number in a namespace.
#[tactic(auto, unfolding(lawful_history::specs::Installing::install_key))]
pub(crate) fn install_key(alloc: Global, namespace: &Text, number: u64) -> Result<Key, Memory>
    ensures { IfOk result (λ key. key ≡ installing.install_key namespace.now number) }
{
    Ok(Key {
        group: Text::from_str(alloc, "operators.coreos.com")?,
        kind: given_name(alloc, b"InstallPlan")?,
        namespace: namespace.clone()?,
        name: install_name(alloc, number)?,
    })
}
