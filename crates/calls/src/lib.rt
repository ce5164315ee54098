// The checker.
#![tactic(auto)]

mod answer;
mod by_call;
mod call;
mod checker;
mod completed;
mod fault;
mod faults;
mod file_calls;
mod files;
mod lines;
mod lists;
mod positions;
pub mod replies;
mod runs;

pub use answer::{Answer, Given};
pub use call::Call;
pub use checker::Checker;
pub use completed::CompletedRun;
pub use fault::Fault;
pub use faults::JudgeFault;
pub use files::{
    FileToken, IdentifiedFile, IdentifyFault, Mark, NamedFile, NamingError, PlaceFault, Receipt,
    TakeFault, with_mark,
};
