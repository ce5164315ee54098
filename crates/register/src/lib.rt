// A register: a store of lives and the total of what its open lives weigh, over any store and any measure.
#![tactic(auto)]

mod faults;
mod judging;
mod register;

pub use faults::ActFault;
pub use register::Register;
