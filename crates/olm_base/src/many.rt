// A list that contracts see as the list of its items, and through which a type may hold itself.
ghost use Rattle.std.specs.Prelude.{◌≡◌, [], ◌∷◌, ◌++◌, OnOk, OnErr};

use crate::Memory;
use std::alloc::{AllocError, Global};
use std::marker::Model;

/// A list of items, which a type may hold itself through, as a constraint of constraints does.
/// Go over it by `as_slice`.
#[derive(Debug, Drop)]
pub struct Many<T> {
    items: Vec<T>,
}

impl<T> Model for Many<T> {
    ghost use Rattle.std.specs.Prelude.{List};
    ghost use Rattle.std.specs.Coded.{coded_list};

    ghost Value = { List T };

    ghost coded = { coded_list T.code };

    ghost view = { λ many. many.items.items };
}

impl<T> Many<T> {
    /// The empty list.
    pub fn new(alloc: Global) -> Many<T>
        ensures { result ≡ [] }
    {
        Many {
            items: Vec::new(alloc),
        }
    }

    /// Keeps the items that it is given.
    pub fn from_vec(items: Vec<T>) -> Many<T>
        ensures { result ≡ items.items }
    {
        Many { items }
    }

    pub fn as_slice(&self) -> &[T]
        ensures { result.now ≡ self.now }
    {
        self.items.as_slice()
    }

    pub fn into_vec(self) -> Vec<T>
        ensures { result.items ≡ self }
    {
        let Many { items } = self;
        items
    }
}

impl<T: Drop> Many<T> {
    /// Appends an item.
    pub fn push(&mut self, item: T) -> Result<(), Memory>
        ensures ok { OnOk result (self.new ≡ self.old ++ item ∷ []) }
        ensures err { OnErr result (self.new ≡ self.old) }
    {
        self.items.push(item)?;
        Ok(())
    }
}

impl<T: Clone> Clone for Many<T> {
    ghost use Rattle.std.specs.List.{AllZip};

    ghost is_clone = { AllZip T.is_clone };

    fn clone(&self) -> Result<Many<T>, AllocError> {
        Ok(Many {
            items: self.items.clone()?,
        })
    }
}

impl<T: PartialEq> PartialEq for Many<T> {
    ghost use Rattle.std.specs.Cmp.Lexicographic.{pointwise, lists_per};

    ghost eq = { pointwise T.eq };

    ghost laws = { lists_per T.laws };

    fn eq(&self, other: &Many<T>) -> bool {
        self.items == other.items
    }
}

impl<T: Eq> Eq for Many<T> {
    ghost use Rattle.std.specs.Cmp.Lexicographic.{lists_equiv};

    ghost laws = { lists_equiv T.Eq.laws };
}
