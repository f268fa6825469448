// Laws of claims.
ghost use Rattle.operator_groups.specs.Laws as law;

/// Claims are disjoint where there are none, and stay so with each claim that comes next.
pub fn claims_stay_disjoint()
    ensures none { law.NoneAreDisjoint }
    ensures next { law.ClaimsStayDisjoint }
{}

/// Once a claim was made it is held.
pub fn made_claims_are_held()
    ensures { law.MadeIsHeld }
{}
