// A checker: a register, the lists of entities and contracts, and the files.
use crate::files::{Brand, FileList};
use contract::ContractList;
use filing::EntityList;
use life::Store;
use measure::Measure;
use register::Register;

/// Judges report lines over a store of lives, by its lists of entities and contracts, and counts them
/// in files. Files are called by their tokens, which have the checker's lifetime `'id` (`with_mark`).
#[derive(Drop)]
pub struct Checker<'id, 's, S: Store, M: Measure> {
    pub(crate) register: Register<'s, S, M>,
    pub(crate) entities: EntityList,
    pub(crate) contracts: ContractList,
    pub(crate) files: FileList,
    pub(crate) brand: Brand<'id>,
}
