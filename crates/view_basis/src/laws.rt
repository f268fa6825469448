//! What holds of every view.

ghost use Rattle.view_basis.specs.Laws as law;

/// In a view in the order of its keys, as a history's views are, subscriptions and tips are in the strict order of
/// their names.
pub fn names_are_in_order()
    ensures subscriptions { law.SubscriptionsAreByName }
    ensures tips { law.TipsAreByName }
{}

/// The visible catalogs are those of the slots. In a view in the order of its keys each comes before all that stand
/// behind it, so none stands twice.
pub fn catalogs_are_in_order()
    ensures slots { law.CatalogsAreOfSlots }
    ensures order { law.CatalogsAreInOrder }
{}

/// The slot of a package's installed one holds the first tip of the package.
pub fn installed_is_first()
    ensures { law.InstalledIsFirst }
{}

/// The catalog of a body breaks no rule.
pub fn valid_breaks_nothing()
    ensures { law.ValidBreaksNothing }
{}
