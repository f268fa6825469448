// The kind of an object, with its group and version.
use crate::{Name, Text};

/// A group, version and kind: what a bundle provides or asks for. The group may be empty.
#[derive(Clone, Debug, Drop, PartialEq, Eq, PartialOrd, Ord)]
pub struct Gvk {
    pub group: Text,
    pub version: Name,
    pub kind: Name,
}
