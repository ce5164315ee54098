// Reads report lines.
#![tactic(auto)]

mod faults;
mod offsets;
mod parts;
mod place;
mod reader;
mod report;

pub use faults::ReadFault;
pub use offsets::{field_count, field_offset};
pub use parts::Part;
pub use reader::{FieldForm, Reader};
pub use report::{LONGEST_LINE, Report, read_line};
