// The commands and options of the programs.
#![tactic(auto)]

mod command;
mod slots;

pub use command::{Command, CommandFault};
pub use slots::{SLOTS, SlotsFault, free_slots, slots_of};
