// The text of the answer lines, written to the front of a buffer of the caller's.
#![tactic(auto)]

mod faults;
mod fronts;
mod lines;
mod positions;

pub use faults::OutputFault;
pub use lines::AnswerLine;
pub use positions::write_positions;
