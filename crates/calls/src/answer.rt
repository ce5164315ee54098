// What a checker answers.
use crate::fault::Fault;
use crate::files::Receipt;
use life::Life;

// What a call that is not refused gives: its acceptance, the counts of a file that is ended, or the life of a line's key.
#[derive(Clone, Copy)]
pub enum Given {
    Accepted,
    Receipt(Receipt),
    Found(Option<Life>),
}

// What a call gives, or why it is refused.
pub type Answer = Result<Given, Fault>;

// The answer to a call, or the total where that was asked.
#[derive(Drop)]
pub(crate) enum Reply<M> {
    Answered(Answer),
    Total(M),
}
