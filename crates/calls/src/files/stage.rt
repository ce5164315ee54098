// Where a file stands: first named, then identified, then ended by closing, or by withdrawing where
// it was only named.
#[derive(Clone, Copy, PartialEq, Eq, Debug)]
pub(crate) enum Stage {
    Named,
    Identified,
    Ended,
}
