// A store over a lent table that is kept in the order of keys.
#![tactic(auto)]

mod entry;
mod ordered;
mod table;

pub use entry::Entry;
pub use ordered::Ordered;
