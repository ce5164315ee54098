// What a call of a run has to do with lives.
use life::Key;
use text::Action;

#[derive(Clone, Copy)]
pub enum Mark {
    // it judged no line
    NoLine,
    // it judged a line, which was refused
    Refused,
    // it judged a line of this key, which was accepted, and what the line did
    Accepted { key: Key, action: Action },
}
