// What a register adds up over its open lives: measures, and totals over any of them.
#![tactic(auto)]

mod both;
mod measure;
mod positions;
mod sheet;
mod total;
mod word;

pub use both::Both;
pub use measure::Measure;
pub use sheet::Sheet;
pub use total::{come, go, replace, total_of};
pub use word::CheckWord;
