// The edges of a CSV's phase.

/// An edge of a CSV's phase. The order is that of their numbers.
#[derive(Clone, Copy, Debug, PartialEq, Eq)]
pub enum Edge {
    /// From None to Pending, always.
    Begin,
    /// From Pending to InstallReady, where it is ready to install.
    Ready,
    /// From InstallReady to Pending, where it isn't.
    Unready,
    /// From Pending to Failed, where the group doesn't fit.
    Misfit,
    /// From InstallReady to Installing, where all its deployments are there.
    Deploy,
    /// From Installing to Succeeded, where all of them are Ready.
    Succeed,
    /// From Installing to Failed, where one is missing or Failed.
    InstallFailed,
    /// From Succeeded to Pending, where an owned or required definition is absent.
    CrdLost,
    /// From Succeeded to Failed, where a deployment is missing or Failed.
    DeploymentLost,
    /// From Failed to Pending, where it may be tried again.
    Recover,
    /// From any phase up to Failed to Replacing, where another CSV names it.
    Replaced,
    /// From Replacing to Deleting, where a CSV above it has succeeded.
    Retire,
    /// From Deleting, always: the CSV is removed.
    Remove,
}
