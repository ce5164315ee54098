//! Reporting entities, and the names of files. The rules of files stand in `specs/Files.antt`; the
//! list of files is in the crate `calls`.
#![tactic(auto)]

mod entities;
mod entity_list;
mod names;

pub use entities::EntityFault;
pub use entity_list::EntityList;
pub use names::{EntityCode, NameFault, read_name};
