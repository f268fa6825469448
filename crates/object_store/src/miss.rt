// Calls of a store that are to fail.

/// The call of this number, counted from 0, fails. A put that fails is made all the same where `applied` says so,
/// if it has neither a conflict nor too little room.
#[derive(Clone, Copy, Debug, PartialEq, Eq)]
pub struct Miss {
    pub call: u64,
    pub applied: bool,
}
