// An entry of a table: a key and its life.
use life::{Key, Life};

#[derive(Clone, Copy)]
pub struct Entry {
    pub key: Key,
    pub life: Life,
}
