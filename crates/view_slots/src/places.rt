// The keys of objects by their names.
ghost use Rattle.std.specs.Prelude.{◌≡◌, true, IfOk};
ghost use Rattle.olm_base.specs.Names.{is_name};
ghost use Rattle.cluster_objects.specs.Places as spec;

use cluster_objects::Key;
use olm_base::{Memory, Name, NameFault, Text};
use std::alloc::Global;
use std::str;

// A name is valid UTF-8.
fn as_text(name: &Name) -> &str
    ensures { result.now ≡ name.now }
{
    match str::from_utf8(name.as_bytes()) {
        Ok(text) => text,
        Err(_) => unreachable!(),
    }
}

// The name of bytes that are one.
fn given_name(alloc: Global, text: &[u8]) -> Result<Name, Memory>
    requires { is_name text.now ≡ true }
    ensures { IfOk result (λ name. name ≡ text.now) }
{
    match Name::new(alloc, text) {
        Ok(name) => Ok(name),
        Err(NameFault::Memory) => Err(Memory),
        Err(NameFault::Bad) => unreachable!(),
    }
}

/// The key of a CSV in a namespace.
pub fn csv_key(alloc: Global, namespace: &Name, name: &Name) -> Result<Key, Memory>
    ensures { IfOk result (λ key. key ≡ spec.csv_key namespace.now name.now) }
{
    Ok(Key {
        group: Text::from_str(alloc, "operators.coreos.com")?,
        kind: given_name(alloc, b"ClusterServiceVersion")?,
        namespace: Text::from_str(alloc, as_text(namespace))?,
        name: name.clone()?,
    })
}

/// The key of a Deployment in a namespace.
pub fn deployment_key(alloc: Global, namespace: &Name, name: &Name) -> Result<Key, Memory>
    ensures { IfOk result (λ key. key ≡ spec.deployment_key namespace.now name.now) }
{
    Ok(Key {
        group: Text::from_str(alloc, "apps")?,
        kind: given_name(alloc, b"Deployment")?,
        namespace: Text::from_str(alloc, as_text(namespace))?,
        name: name.clone()?,
    })
}

/// The key of a custom resource definition, which stands in no namespace.
pub fn crd_key(alloc: Global, name: &Name) -> Result<Key, Memory>
    ensures { IfOk result (λ key. key ≡ spec.crd_key name.now) }
{
    Ok(Key {
        group: Text::from_str(alloc, "apiextensions.k8s.io")?,
        kind: given_name(alloc, b"CustomResourceDefinition")?,
        namespace: Text::from_str(alloc, "")?,
        name: name.clone()?,
    })
}

/// The key of a namespace's Resolution.
pub fn resolution_key(alloc: Global, namespace: &Name) -> Result<Key, Memory>
    ensures { IfOk result (λ key. key ≡ spec.resolution_key namespace.now) }
{
    Ok(Key {
        group: Text::from_str(alloc, "olmctl.local")?,
        kind: given_name(alloc, b"Resolution")?,
        namespace: Text::from_str(alloc, as_text(namespace))?,
        name: given_name(alloc, b"current")?,
    })
}

/// The key of the claims of all namespaces.
pub fn claims_key(alloc: Global) -> Result<Key, Memory>
    ensures { IfOk result (λ key. key ≡ spec.claims_key) }
{
    Ok(Key {
        group: Text::from_str(alloc, "olmctl.local")?,
        kind: given_name(alloc, b"Claims")?,
        namespace: Text::from_str(alloc, "")?,
        name: given_name(alloc, b"claims")?,
    })
}
