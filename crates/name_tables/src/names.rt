// Sets of names.
ghost use Rattle.std.specs.Prelude.{◌≡◌, ◌||◌, ℕ, List, false, not, IfOk, OnOk, OnErr};
ghost use Rattle.name_tables.specs.Sets as sets;

use olm_base::{Memory, Name};
use std::alloc::Global;
use std::collections::BTreeSet;

/// A set of names.
#[derive(Drop)]
pub struct NameSet<'a> {
    names: BTreeSet<&'a Name>,
}

impl<'a> NameSet<'a> {
    /// The set of no names.
    pub fn new(alloc: Global) -> NameSet<'a>
        ensures { (name : List ℕ) → sets.has result name ≡ false }
    {
        NameSet {
            names: BTreeSet::new(alloc),
        }
    }

    /// Whether the set has the name.
    pub fn has(&self, name: &'a Name) -> bool
        ensures { result ≡ sets.has self.now name.now }
    {
        self.names.contains(&name)
    }

    /// Adds the name, and says whether the set didn't have it.
    pub fn add(&mut self, name: &'a Name) -> Result<bool, Memory>
        ensures is_new { IfOk result (λ is_new. is_new ≡ not (sets.has self.old name.now)) }
        ensures added { OnOk result ((other : List ℕ) → sets.has self.new other ≡ (sets.has self.old other || sets.same name.now other)) }
        ensures unchanged { OnErr result ((other : List ℕ) → sets.has self.new other ≡ sets.has self.old other) }
    {
        let is_new = self.names.insert(name)?;
        Ok(is_new)
    }
}
