// The contract list, and what a read line owes to it.
#![tactic(auto)]

mod contracts;
mod faults;
mod held;
mod list;
mod names;
mod offers;
mod types;

pub use faults::{ContractFault, ListFault};
pub use list::ContractList;
pub use types::ContractType;
