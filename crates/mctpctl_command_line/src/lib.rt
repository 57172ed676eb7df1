//! The command line of `mctpctl`: what it asks for, and what its help says.
#![tactic(auto)]

mod choice;
mod help;

pub use choice::{
    AskOptions, Choice, ChooseFault, LineOptions, ServeOptions, Task, TextTask, UpdateOptions,
    WalkOptions, WatchOptions, choose,
};
pub use help::{NO_COMMAND, NO_FAULTS, TRY_HELP};
