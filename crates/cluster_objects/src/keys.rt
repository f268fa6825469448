// Keys, under which objects stand, and stamps, which the writes of a plan's steps carry.
ghost use Rattle.std.specs.Prelude.{◌≡◌, ◌++◌, OnOk};
ghost use Rattle.cluster_objects.specs.Keys.{key_cmp, printed};

use olm_base::{Memory, Name, Text};
use std::alloc::AllocError;
use std::cmp::Ordering;

/// Where an object stands. The group and the namespace may be empty. Keys are ordered by group, kind, namespace
/// and name, each by its bytes.
#[derive(Debug, PartialEq, Eq, PartialOrd, Ord, Drop)]
pub struct Key {
    pub group: Text,
    pub kind: Name,
    pub namespace: Text,
    pub name: Name,
}

/// What the write of a plan's step carries: the namespace and number of the plan, and the step's index from 0.
#[derive(Debug, PartialEq, Eq, Drop)]
pub struct Stamp {
    pub namespace: Name,
    pub plan: u64,
    pub step: u64,
}

/// Which of two keys comes first, and Equal exactly where they are one. It is the order of a cluster's state.
pub fn compare_keys(key: &Key, other: &Key) -> Ordering
    ensures { result ≡ key_cmp key.now other.now }
{
    key.cmp(other)
}

/// Appends the key's printed form, `GROUP/KIND/NAMESPACE/NAME` with an empty part as nothing. After want of memory
/// a beginning of it may stand there.
pub fn print_key(key: &Key, out: &mut Vec<u8>) -> Result<(), Memory>
    ensures { OnOk result (out.new.items ≡ out.old.items ++ printed key.now) }
{
    out.extend_from_slice(key.group.as_slice())?;
    out.push(b'/')?;
    out.extend_from_slice(key.kind.as_bytes())?;
    out.push(b'/')?;
    out.extend_from_slice(key.namespace.as_slice())?;
    out.push(b'/')?;
    out.extend_from_slice(key.name.as_bytes())?;
    Ok(())
}

impl Clone for Key {
    ghost use Rattle.std.specs.Prelude.{◌≡◌};

    ghost is_clone = { λ key copy. copy ≡ key };

    fn clone(&self) -> Result<Key, AllocError> {
        Ok(Key {
            group: self.group.clone()?,
            kind: self.kind.clone()?,
            namespace: self.namespace.clone()?,
            name: self.name.clone()?,
        })
    }
}

impl Clone for Stamp {
    ghost use Rattle.std.specs.Prelude.{◌≡◌};

    ghost is_clone = { λ stamp copy. copy ≡ stamp };

    fn clone(&self) -> Result<Stamp, AllocError> {
        Ok(Stamp {
            namespace: self.namespace.clone()?,
            plan: self.plan,
            step: self.step,
        })
    }
}
