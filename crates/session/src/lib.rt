// A session: lines of input given to one checker, one after another, and the text that answers them.
#![tactic(auto)]

mod explain;
mod file_in_hand;
mod input;
mod lines;
mod printer;
mod refusals;
mod reply;

pub use input::{answer_all, calls_of_input};
pub use refusals::Refusal;
pub use reply::Totals;
