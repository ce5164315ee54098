// A claim.
use life::{Key, Life};
use text::Action;

// What a line claims: the key that it names, its action, and the life that it tells of, an open one with the line's time, quantity and price.
#[derive(Clone, Copy)]
pub struct Claim {
    pub key: Key,
    pub action: Action,
    pub told: Life,
}
