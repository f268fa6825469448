// Sets of names that belong to owners.
ghost use Rattle.std.specs.Prelude.{◌≡◌, ◌||◌, ◌&&◌, ℕ, List, false, not, IfOk, OnOk, OnErr};
ghost use Rattle.name_tables.specs.Sets as sets;

use olm_base::{Memory, Name};
use std::alloc::Global;
use std::collections::BTreeSet;

/// A name, and the name of what it belongs to.
#[derive(Clone, Copy, Drop, PartialEq, Eq, PartialOrd, Ord)]
pub(crate) struct Owned<'a> {
    owner: &'a Name,
    name: &'a Name,
}

/// A set of names, each with the name of what it belongs to.
#[derive(Drop)]
pub struct OwnedNames<'a> {
    names: BTreeSet<Owned<'a>>,
}

impl<'a> OwnedNames<'a> {
    /// The set of no names.
    pub fn new(alloc: Global) -> OwnedNames<'a>
        ensures { (owner name : List ℕ) → sets.has_owned result owner name ≡ false }
    {
        OwnedNames {
            names: BTreeSet::new(alloc),
        }
    }

    /// Whether the set has the name of this owner.
    pub fn has(&self, owner: &'a Name, name: &'a Name) -> bool
        ensures { result ≡ sets.has_owned self.now owner.now name.now }
    {
        let asked = Owned { owner, name };
        self.names.contains(&asked)
    }

    /// Adds the name of this owner, and says whether the set didn't have it.
    pub fn add(&mut self, owner: &'a Name, name: &'a Name) -> Result<bool, Memory>
        ensures is_new { IfOk result (λ is_new. is_new ≡ not (sets.has_owned self.old owner.now name.now)) }
        ensures added { OnOk result ((other named : List ℕ) → sets.has_owned self.new other named ≡ (sets.has_owned self.old other named || (sets.same owner.now other && sets.same name.now named))) }
        ensures unchanged { OnErr result ((other named : List ℕ) → sets.has_owned self.new other named ≡ sets.has_owned self.old other named) }
    {
        let is_new = self.names.insert(Owned { owner, name })?;
        Ok(is_new)
    }
}
