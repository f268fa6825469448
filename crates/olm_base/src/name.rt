// Names and groups.
ghost use Rattle.std.specs.Prelude.{◌≡◌, ◌↔◌, IfOk, IsErrOf, IsTrue, true, false, ◌≤◌, length};
ghost use Rattle.std.specs.List.{list_all};
ghost use Rattle.olm_base.specs.Names as spec;

use crate::Memory;
use std::alloc::{AllocError, Global};
use std::cmp::Ordering;
use std::hash::{Hash, Hasher};
use std::marker::Model;
use thiserror::Error;

/// The most bytes of a name.
pub const NAME_LIMIT: usize = 1100;

/// The most bytes of a name that is read from outside. Names above it are made by the program alone, by joining others.
pub const OUTSIDE_NAME_LIMIT: usize = 253;

/// The most bytes of a group.
pub const GROUP_LIMIT: usize = 253;

/// A name: 1 to 1,100 printing bytes of ASCII other than the blank, `/`, `"` and `\`. Names are ordered by their bytes.
#[derive(Debug, Drop)]
pub struct Name {
    text: Vec<u8>,
}

impl Model for Name {
    ghost use Rattle.std.specs.Prelude.{List, ℕ, IsTrue};
    ghost use Rattle.std.specs.Coded.{coded_list, coded_ℕ};
    ghost use Rattle.olm_base.specs.Names.{is_name};

    ghost Value = { List ℕ };

    ghost coded = { coded_list coded_ℕ };

    ghost view = { λ name. name.text.items };

    ghost invariant = { λ name. IsTrue (is_name name.text.items) };
}

/// Why a text is no name.
#[derive(Clone, Copy, Debug, PartialEq, Eq, Error)]
pub enum NameFault {
    #[error("no name")]
    Bad,
    #[error("out of memory")]
    Memory,
}

fn is_name_byte(byte: u8) -> bool
    ensures { result ≡ spec.is_name_byte byte }
{
    byte >= 0x21 && byte <= 0x7e && byte != b'/' && byte != b'"' && byte != b'\\'
}

fn are_name_bytes(text: &[u8]) -> bool
    ensures { result ≡ list_all spec.is_name_byte text.now }
{
    text.iter().all(|byte| is_name_byte(*byte))
}

/// Whether these bytes are a name.
pub fn is_name(text: &[u8]) -> bool
    ensures { result ≡ spec.is_name text.now }
{
    1 <= text.len() && text.len() <= NAME_LIMIT && are_name_bytes(text)
}

/// Whether these bytes are a name that may come from outside.
pub fn is_outside_name(text: &[u8]) -> bool
    ensures { result ≡ spec.is_outside_name text.now }
{
    text.len() <= OUTSIDE_NAME_LIMIT && is_name(text)
}

/// Whether these bytes are a group, which may be empty.
pub fn is_group(text: &[u8]) -> bool
    ensures { result ≡ spec.is_group text.now }
{
    text.len() <= GROUP_LIMIT && are_name_bytes(text)
}

impl Name {
    /// The name of these bytes.
    pub fn new(alloc: Global, text: &[u8]) -> Result<Name, NameFault>
        ensures ok { IfOk result (λ name. (name ≡ text.now) × IsTrue (spec.is_name text.now)) }
        ensures bad { IsErrOf result NameFault.Bad ↔ (spec.is_name text.now ≡ false) }
    {
        if !is_name(text) {
            return Err(NameFault::Bad);
        }
        match Vec::from_slice(alloc, text) {
            Ok(text) => Ok(Name { text }),
            Err(_) => Err(NameFault::Memory),
        }
    }

    /// The name's bytes.
    pub fn as_bytes(&self) -> &[u8]
        ensures bytes { result.now ≡ self.now }
        ensures name { IsTrue (spec.is_name self.now) }
    {
        self.text.as_slice()
    }
}

impl Clone for Name {
    ghost use Rattle.std.specs.Prelude.{◌≡◌};

    ghost is_clone = { λ name copy. copy ≡ name };

    fn clone(&self) -> Result<Name, AllocError> {
        Ok(Name {
            text: self.text.clone()?,
        })
    }
}

impl PartialEq for Name {
    ghost use Rattle.std.specs.Prelude.{nat_eq};
    ghost use Rattle.std.specs.Cmp.Lexicographic.{pointwise};
    ghost use Rattle.std.proofs.Common.{rules};
    ghost use Rattle.std.specs.Cmp.Rules.{comparing};

    ghost eq = { pointwise nat_eq };

    ghost laws = { Prim.search (comparing, rules) };

    fn eq(&self, other: &Name) -> bool {
        self.text == other.text
    }
}

impl Eq for Name {
    ghost use Rattle.std.proofs.Common.{rules};
    ghost use Rattle.std.specs.Cmp.Rules.{comparing};

    ghost laws = { Prim.search (comparing, rules) };
}

impl Ord for Name {
    ghost use Rattle.std.specs.Ordering.{nat_cmp};
    ghost use Rattle.std.specs.Cmp.Lexicographic.{slice_cmp};
    ghost use Rattle.std.proofs.Common.{rules};
    ghost use Rattle.std.specs.Cmp.Rules.{comparing};

    ghost cmp = { slice_cmp nat_cmp };

    ghost total = { Prim.search (comparing, rules) };

    ghost matches_partial_cmp = { Prim.search (comparing, rules) };

    ghost matches_eq = { Prim.search (comparing, rules) };

    fn cmp(&self, other: &Name) -> Ordering {
        self.text.cmp(&other.text)
    }
}

impl PartialOrd for Name {
    ghost use Rattle.std.specs.Ordering.{nat_cmp, as_partial_cmp};
    ghost use Rattle.std.specs.Cmp.Lexicographic.{slice_cmp};
    ghost use Rattle.std.specs.Cmp.{partial_order_from_own_ties};
    ghost use Rattle.std.proofs.Common.{rules};
    ghost use Rattle.std.specs.Cmp.Rules.{comparing};

    ghost partial_cmp = { as_partial_cmp (slice_cmp nat_cmp) };

    ghost laws = { partial_order_from_own_ties (Prim.search (comparing, rules)) (Prim.search (comparing, rules)) };

    fn partial_cmp(&self, other: &Name) -> Option<Ordering> {
        Some(self.cmp(other))
    }
}

impl Hash for Name {
    ghost use Rattle.std.specs.Hash as fed;
    ghost use Rattle.std.specs.Hash.{items_Alike};
    ghost use Rattle.std.proofs.Common.{rules};
    ghost use Rattle.std.specs.Cmp.Rules.{hashing};

    ghost hash_input = { fed.slice (fed.u8) };

    ghost respects_eq = { Prim.search (hashing, rules) };

    fn hash<H: Hasher>(&self, state: &mut H) {
        self.text.hash(state);
    }
}
