// Laws between the definitions of a valid catalog.
ghost use Rattle.std.specs.Prelude.{◌≡◌, ◌≤◌, ◌↔◌, List, ℕ, true, All, Some, Ok, length};
ghost use Rattle.fbc_read.specs.Bodies.{input_limit};
ghost use Rattle.fbc_types.specs.declared.catalog.Catalog.{Catalog};
ghost use Rattle.cluster_history.specs.History.{History};
ghost use Rattle.cluster_history.specs.Views.{view};
ghost use Rattle.folder_events.specs.Catalogs.{valid_text};
ghost use Rattle.folder_events.specs.Laws.{IsValid};
ghost use Rattle.lawful_history.specs.Sound.{IsLawful};
ghost use Rattle.lawful_events.specs.Runs.{Accepts, GoesOnByUsers};
ghost use Rattle.view_basis.specs.Bodies.{valid_catalog};
ghost use Rattle.view_basis.specs.Visible.{visible_catalogs};
ghost use Rattle.one_catalog.specs.Catalogs.{HasCatalog, IsCatalogOf, is_valid_catalog};

/// A view reads a catalog of a body exactly where an event of a user may write that body, and it is the same
/// catalog. A text within the limit is one that such an event takes exactly where it is valid.
pub fn tests_are_one()
    ensures catalog { (body : List ℕ) (catalog : Catalog) → (valid_catalog body ≡ Some catalog) ↔ IsCatalogOf body catalog }
    ensures test { (body : List ℕ) → (is_valid_catalog body ≡ true) ↔ IsValid body }
    ensures taken { (text : List ℕ) → length text ≤ input_limit → (valid_text text ≡ Ok text) ↔ IsValid text }
{}

/// The test passes what a user's event writes, as the laws of these events ask for. So a history that is lawful by
/// this test stays so by users' writes.
pub fn users_catalogs_pass()
    ensures accepts { Accepts is_valid_catalog }
    ensures lawful { (h new : History) → GoesOnByUsers h new → IsLawful is_valid_catalog h → IsLawful is_valid_catalog new }
{}

/// In each view of a lawful history each visible catalog is read.
pub fn lawful_catalogs_are_seen()
    ensures { (h : History) (namespace : List ℕ) (a : ℕ) → IsLawful is_valid_catalog h → All HasCatalog (visible_catalogs (view h namespace a)) }
{}
