// A catalog that breaks no rule.
ghost use Rattle.std.specs.Prelude.{◌≡◌, []};
ghost use Rattle.fbc_types.specs.Rules.{broken};

use crate::Catalog;
use std::marker::Model;

/// A catalog that breaks none of the rules. Contracts see it as that catalog.
#[derive(Debug, Drop)]
pub struct CheckedCatalog {
    catalog: Catalog,
}

impl Model for CheckedCatalog {
    ghost use Rattle.std.specs.Prelude.{◌≡◌, []};
    ghost use Rattle.fbc_types.specs.Rules.{broken};
    ghost use Rattle.std.specs.Coded.{codes};
    ghost use Rattle.fbc_types.specs.contracts.property.RawConstraint as raw_constraint;
    ghost use Rattle.fbc_types.specs.declared.catalog.Catalog.{Catalog};

    ghost Value = { Catalog };

    ghost coded = { Prim.hlevel (codes, raw_constraint.the_row.coded) };

    ghost view = { λ checked. checked.catalog };

    ghost invariant = { λ checked. broken checked.catalog ≡ [] };
}

impl CheckedCatalog {
    /// Keeps the catalog that it is given. `fbc_check` tells whether it breaks a rule.
    pub fn new(catalog: Catalog) -> CheckedCatalog
        requires { broken catalog ≡ [] }
        ensures { result ≡ catalog }
    {
        CheckedCatalog { catalog }
    }

    /// The catalog, which breaks no rule.
    pub fn catalog(&self) -> &Catalog
        ensures catalog { result.now ≡ self.now }
        ensures valid { broken self.now ≡ [] }
    {
        &self.catalog
    }
}
