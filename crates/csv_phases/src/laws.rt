// Laws of the edges of CSVs, and of what the role phases may write.
ghost use Rattle.csv_phases.specs.Laws as law;

/// An edge that applies leads to another phase than the CSV is in.
pub fn edges_change_phases()
    ensures { law.EdgesChangePhases }
{}

/// The chosen edge applies, and none is chosen where the CSV is Deleting.
pub fn chosen_edges_apply()
    ensures applies { law.ChosenApplies }
    ensures deleting { law.NoneFromDeleting }
{}

/// Ready deployments aren't lost, and the group of what is ready to install fits.
pub fn conditions_exclude()
    ensures deployments { law.ReadyIsNotLost }
    ensures group { law.ReadyFits }
{}

/// The role's writes have no stamp, and are of no InstallPlan, Resolution or CatalogSource.
pub fn writes_are_aside()
    ensures { law.WritesAreAside }
{}

/// Each write of a CSV or a Subscription goes along an edge from what stands there in the view.
pub fn writes_take_edges()
    ensures puts { law.PutCsvsTakeEdges }
    ensures removals { law.RemovedCsvsTakeEdges }
    ensures subscriptions { law.SubscriptionsTakeEdges }
{}

/// No CSV takes two edges in one view.
pub fn edges_are_one_each()
    ensures { law.OneEdgeEach }
{}

/// Claims that are disjoint stay so with each write of them.
pub fn written_claims_are_disjoint()
    ensures { law.WrittenClaimsAreDisjoint }
{}
