// Where a catalog breaks a rule.

use olm_base::Name;

/// A broken rule, and the package, channel, and bundle or entry that breaks it.
#[derive(Debug, Drop, PartialEq)]
pub struct CheckFault {
    /// The rule's number, from 1 to 15.
    pub rule: u8,
    pub package: Name,
    pub channel: Option<Name>,
    /// The entry of that channel, or where there is none the bundle of the package.
    pub item: Option<Name>,
}
