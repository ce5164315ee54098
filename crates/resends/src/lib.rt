// Sending again what is left of a list of calls.
#![tactic(auto)]

mod mark;
mod marks;
mod sending;
mod survivors;

pub use sending::{ResendError, Resent, resend};
