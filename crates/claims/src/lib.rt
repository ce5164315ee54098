// What a report line claims, read against the contract list: its key, its action and what it tells.
#![tactic(auto)]

mod claimed;
mod claims;
mod faults;

pub use claimed::Claim;
pub use claims::claim;
pub use faults::LineFault;
