// The first writes in a view.
ghost use Rattle.std.specs.Prelude.{None, IfOk};
ghost use Rattle.controller_rules.specs.Enabled.{IsFirst};
ghost use Rattle.controller_rules.specs.declared.roles.Role.TheVariants.{Installer, Resolver};
ghost use Rattle.controller.specs.Answers.{IsNext};

use cluster_objects::Write;
use controller_rules::Role;
use object_store::View;
use olm_base::Memory;
use phases_role::phases_first;
use plan_steps::installer_first;
use resolver_role::resolver_first;
use std::alloc::Global;

/// The first of the role's writes in the view, and None exactly where it has none.
pub fn enabled_first(alloc: Global, role: Role, view: &View) -> Result<Option<Write>, Memory>
    ensures { IfOk result (λ write. IsFirst role view.now write) }
{
    match role {
        Role::Resolver => resolver_first(alloc, view),
        Role::Installer => installer_first(view),
        Role::Phases => phases_first(alloc, view),
    }
}

// The next write where neither the resolver nor the installer has one.
fn of_phases(alloc: Global, view: &View) -> Result<Option<Write>, Memory>
    requires resolver { IsFirst Resolver view.now None }
    requires installer { IsFirst Installer view.now None }
    ensures { IfOk result (λ write. IsNext view.now write) }
{
    phases_first(alloc, view)
}

// The next write where the resolver has none.
fn of_installer(alloc: Global, view: &View) -> Result<Option<Write>, Memory>
    requires { IsFirst Resolver view.now None }
    ensures { IfOk result (λ write. IsNext view.now write) }
{
    match installer_first(view) {
        Ok(Some(write)) => Ok(Some(write)),
        Ok(None) => of_phases(alloc, view),
        Err(Memory) => Err(Memory),
    }
}

/// The first write of the first role that has one, of resolver, installer and phases.
pub(crate) fn first_of_all(alloc: Global, view: &View) -> Result<Option<Write>, Memory>
    ensures { IfOk result (λ write. IsNext view.now write) }
{
    match resolver_first(alloc, view) {
        Ok(Some(write)) => Ok(Some(write)),
        Ok(None) => of_installer(alloc, view),
        Err(Memory) => Err(Memory),
    }
}
