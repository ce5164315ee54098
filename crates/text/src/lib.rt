// Texts, words, numbers and names: what the parts of a line are made of.
#![tactic(auto)]

mod bounded;
mod classes;
mod codes;
mod cuts;
mod names;
mod numbers;
mod order;
mod texts;
mod words;

pub use bounded::Text;
pub use classes::{
    ByteClass, Capitals, CapitalsOrDigits, Digits, IdBytes, LettersOrDigits, all_of,
};
pub use codes::{is_code, is_id, is_venue};
pub use cuts::{rest_after, span_to};
pub use names::Names;
pub use numbers::{price_of, quantity_of, time_of};
pub use texts::{compare_bytes, is_among, same_bytes};
pub use words::{Action, Kind, Side};
