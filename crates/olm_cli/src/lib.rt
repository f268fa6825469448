//! The top call of `olmctl`: the words of the command line are read into a command, which is run over what lies
//! outside.
//!
//! A command's runs are defined for its words and what the folder and the input hold: what stands on `out`, and the
//! cause for which the run doesn't end with status 0. `specs/Commands.antt` has them by command, `specs/Causes.antt`
//! the status of each cause, and `specs/Lines.antt` its line on `err`.
#![tactic(auto)]

mod call;
mod causes;
mod checking;
mod cluster;
mod graph;
mod helping;
mod lines;
mod places;
mod printing;
mod reading;
mod resolving;
mod running;
mod telling;
mod verifying;
mod words;

pub use call::olmctl;
pub use causes::{Cause, Exit, exit_of, status};
pub use lines::tell_cause;
pub use reading::Valid;
pub use words::{ChannelWords, Command, Place, Task};
