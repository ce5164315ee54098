// A store over a lent table of slots, which are chained by the words of their keys.
#![tactic(auto)]

mod chained;
mod slot;
mod table;

pub use chained::Chained;
pub use slot::Slot;
