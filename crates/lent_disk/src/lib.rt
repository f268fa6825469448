//! A borrowed disk that a store can own.
//!
//! A store owns its disk, so over a borrowed disk it holds the borrow. What is left of the disk when the store is
//! closed is known only if the store still holds that same borrow, and no trait says that of a type it knows nothing
//! of. So [`Lent`] names its borrow in its type: whatever a store does to it, it stays that borrow, and what it holds at
//! the end is what the disk holds.
//!
//! A call with `disk: &mut D` takes three steps. It puts the borrow into a [`Handle`], and passes that to a function
//! that is generic in the [`Borrow`], with `Brand` for it: its proof says which borrow that is, in one line. That
//! function makes a [`Lent`] of the handle, gives it to a function over a disk of its own, and makes a handle again of
//! the one that comes back.
#![tactic(auto)]

mod lent;

pub use lent::{Borrow, Handle, Lent};
