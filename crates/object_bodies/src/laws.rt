// Laws of the definitions.
ghost use Rattle.std.specs.Prelude.{List, ℕ};
ghost use Rattle.object_bodies.specs.Laws as law;

/// The law of new objects: an object that is read from a user's body counts as one of its kind exactly by its key,
/// has the status of one that nobody has looked after, and is no install plan, resolution, catalog, claims or lease.
pub fn new_law()
    ensures { (body : List ℕ) → law.AreNew body }
{}

/// The law of made objects: so it is for what a plan carries, which is no upgrade strategy and no group either.
pub fn made_law()
    ensures { (namespace : List ℕ) → (body : List ℕ) → law.AreMadeNew namespace body }
{}

/// The law of namespaces: a user's object stands in a namespace with a name, exactly where its kind has one.
pub fn namespace_law()
    ensures { (body : List ℕ) → law.AreNamed body }
{}

/// The law of carried bodies: what a user may give, a plan may carry, and it makes the same object in the plan's
/// namespace. Upgrade strategies and groups alone are forbidden there.
pub fn carried_law()
    ensures { (namespace : List ℕ) → (body : List ℕ) → law.AreCarried namespace body }
{}
