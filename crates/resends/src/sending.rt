// A list of calls on a new checker, and what is left of them on another.
ghost use Rattle.std.specs.Prelude.{◌≡◌, ◌==◌, not, IfOk};
ghost use Rattle.calls.specs.Said.{calls_said, answers_said};
ghost use Rattle.calls.specs.Held.{book_in};
ghost use Rattle.resends.specs.Resends.{Resends, other_capacity};
ghost use Rattle.resends.specs.declared.sending.ResendError.TheVariants.{NoMemory};

use crate::marks::marks;
use crate::survivors::survivors;
use calls::{Call, Checker, CompletedRun};
use life::Store;
use measure::Measure;
use std::alloc::{AllocError, Global};

// Why nothing was sent again.
#[derive(Clone, Copy, PartialEq, Eq, Debug)]
pub enum ResendError {
    // the second store has room for more lives than the first, or for fewer
    OtherCapacity,
    NoMemory,
}

impl From<AllocError> for ResendError {
    ghost from_gives = { λ e r. r ≡ NoMemory };

    fn from(_: AllocError) -> ResendError {
        ResendError::NoMemory
    }
}

// The run of the calls, those that are left of them, and the run of these.
#[derive(Drop)]
pub struct Resent<'c, 's, 't, S: Store, T: Store, M: Measure> {
    pub first: CompletedRun<'s, S, M>,
    pub left: Vec<Call<'c>>,
    pub second: CompletedRun<'t, T, M>,
}

// Gives the calls to a new checker, and what is left of them to a second one, over a store with room for as many lives.
pub fn resend<'c, 's, 't, S: Store, T: Store, M: Measure>(
    heap: Global,
    store: &'s mut S,
    other: &'t mut T,
    calls: &[Call<'c>],
) -> Result<Resent<'c, 's, 't, S, T, M>, ResendError>
    ensures law { IfOk result (λ r. Resends M.Measure (S.room store.old) (calls_said calls.now)
        (answers_said r.first.answers.items) r.first.totals.items (calls_said r.left.items) (answers_said r.second.answers.items) r.second.totals.items
        (book_in r.first.checker) r.first.checker.register.total (book_in r.second.checker) r.second.checker.register.total) }
    ensures capacity { other_capacity result ≡ not (S.room store.old == T.room other.old) }
{
    if store.capacity() != other.capacity() {
        return Err(ResendError::OtherCapacity);
    }
    let first = Checker::run(heap, store, calls)?;
    let marks = marks(heap, calls, first.answers.as_slice())?;
    let left = survivors(heap, calls, marks.as_slice())?;
    let second = Checker::run(heap, other, left.as_slice())?;
    Ok(Resent {
        first,
        left,
        second,
    })
}
