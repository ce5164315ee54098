// The files that lines are judged in: named, identified and ended, with the counts of their lines.
mod acts;
mod by_number;
mod by_token;
mod faults;
mod held;
mod list;
mod naming;
mod receipt;
mod stage;
mod token;

pub use faults::{IdentifyFault, NamingError, PlaceFault, TakeFault};
pub(crate) use list::FileList;
pub use receipt::Receipt;
pub(crate) use token::Brand;
pub use token::{FileToken, IdentifiedFile, Mark, NamedFile, with_mark};
