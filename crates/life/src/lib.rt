// Keys, lives, what an action does to a life, and what a store of lives means.
#![tactic(auto)]

mod acts;
mod fault;
mod fnv;
mod key;
mod keys;
mod life;
mod store;
mod table_length;

pub use acts::{Outcome, first};
pub use fault::{LifeFault, TableFault};
pub use fnv::{hash, hash_on};
pub use key::Key;
pub use keys::CONTRACTS;
pub use life::{Life, State};
pub use store::{NoRoom, Store};
pub use table_length::check_length;
