// A slot of a table.
use life::{Key, Life};

// It starts the chain of its own number at `head`, and holds a pair that is followed in its chain by the slot `next`. Zero ends
// a chain, and a link is no `Option<u32>`: each of the two would take four bytes more in every lent slot, and the published table
// starts with a zero at each chain, which means its end. Links are numbers of slots: the caller lends the whole table, and
// nothing is allocated.
#[derive(Clone, Copy)]
pub struct Slot {
    pub head: u32,
    pub next: u32,
    pub key: Key,
    pub life: Life,
}
