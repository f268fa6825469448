// The roles of the controller.

/// A role of the controller.
#[derive(Clone, Copy, Debug, PartialEq, Eq)]
pub enum Role {
    /// Decides what to install, and makes plans for it.
    Resolver,
    /// Carries plans out.
    Installer,
    /// Moves the phases of CSVs, and what depends on them.
    Phases,
}
