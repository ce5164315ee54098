// The counts of a file that is ended.
#[derive(Clone, Copy, PartialEq, Eq, Debug)]
pub struct Receipt {
    pub judged: u32,
    pub accepted: u32,
    pub refused: u32,
}
