// The marks of a run: what each of its calls had to do with lives.
ghost use Rattle.std.specs.Prelude.{◌≡◌, ℕ, IfOk};
ghost use Rattle.book.specs.Book.{Book, empty_book, Judge as JudgeCall, answer as book_answer, answers as book_answers};
ghost use Rattle.book.specs.Laws.{log};
ghost use Rattle.calls.specs.Said.{call_said, calls_said, answer_said, answers_said};
ghost use Rattle.resends.specs.Marks.{mark_parts, mark_in, marks_in, marks_of, MarksCall};

use crate::mark::Mark;
use calls::{Answer, Call};
use claims::claim;
use contract::ContractList;
use std::alloc::{AllocError, Global};

// The mark of a judged line with its answer.
fn line_mark(contracts: &ContractList, line: &[u8], answer: &Answer) -> Mark
    ensures { (b : Book) (n : ℕ) → b.contracts ≡ contracts.now → answer_said answer.now ≡ book_answer b (JudgeCall n line.now) → mark_parts result ≡ mark_in b (JudgeCall n line.now) }
{
    if answer.is_err() {
        return Mark::Refused;
    }
    match claim(contracts, line) {
        Ok(claim) => Mark::Accepted {
            key: claim.key,
            action: claim.action,
        },
        Err(_) => Mark::Refused,
    }
}

// The mark of a call with its answer; `contracts` are those listed then, and go on with the call.
fn mark_of(contracts: &mut ContractList, call: &Call, answer: &Answer) -> Mark
    ensures { (b : Book) → b.contracts ≡ contracts.old → answer_said answer.now ≡ book_answer b (call_said call.now) → MarksCall b (call_said call.now) (mark_parts result) contracts.new }
{
    match *call {
        Call::AddContract(text) => {
            let _ = contracts.add(text);
            Mark::NoLine
        }
        Call::Judge(_, line) => line_mark(contracts, line, answer),
        _ => Mark::NoLine,
    }
}

// The marks of the calls of a run, from its answers.
pub(crate) fn marks(
    heap: Global,
    calls: &[Call],
    answers: &[Answer],
) -> Result<Vec<Mark>, AllocError>
    ensures { IfOk result (λ v. (capacity : ℕ) → answers_said answers.now ≡ book_answers (empty_book capacity) (calls_said calls.now) → marks_in v.items ≡ marks_of (log (empty_book capacity) (calls_said calls.now))) }
{
    let mut contracts = ContractList::new(heap)?;
    let mut marks = Vec::with_capacity(heap, calls.len())?;
    for (call, answer) in calls.iter().zip(answers) {
        marks.push(mark_of(&mut contracts, call, answer))?;
    }
    Ok(marks)
}
