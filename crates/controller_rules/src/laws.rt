// Laws of the resolver.
ghost use Rattle.controller_rules.specs.Laws as law;

/// Where the resolver has no write, no write is one of its.
pub fn resting_resolvers_write_nothing()
    ensures { law.NoneIsNone }
{}
