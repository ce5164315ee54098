// A whole input, line by line.
ghost use Rattle.std.specs.Prelude.{◌≡◌, ℕ, ◌++◌, IfOk, OnOk, OnErr, option_map};
ghost use Rattle.book.specs.Book.{empty_book, end};
ghost use Rattle.calls.specs.Said.{call_said, calls_said};
ghost use Rattle.session.specs.Held.{GivenInput};
ghost use Rattle.session.specs.Session.{lines_of, listed, calls_of_input};
ghost use Rattle.session.specs.SessionLaw.{EndsItsFiles, FilesEnd, GivenPart};

use crate::file_in_hand::FileInHand;
use crate::lines::Lines;
use crate::printer::Printer;
use crate::reply::Totals;
use calls::{Call, Checker, Mark, with_mark};
use chained::Chained;
use life::Store;
use measure::{Both, CheckWord, Measure, Sheet};
use std::alloc::{AllocError, Global};
use std::io;

// Answers each line of an input on standard output, and ends the file that is in hand at last. Where all was written, the calls that the lines make
// were given to the checker, one after another. On standard error each refusal is explained, where that is wanted.
// Each file that is named has ended at last, with one receipt, in the order of naming. Where
// something cannot be written, or memory is wanting, the same holds of the lines up to that place.
pub fn answer_all<S: Store>(
    rt: HostRuntime,
    checker: &mut Checker<'_, '_, S, Totals>,
    input: &[u8],
    explains: bool,
) -> io::Result<()>
    ensures given { OnOk result (GivenInput ⟦<Both<Sheet, CheckWord> as Measure>⟧
        checker.old input.now checker.new) }
    ensures files { OnOk result (FilesEnd ⟦<Both<Sheet, CheckWord> as Measure>⟧
        checker.old (lines_of input.now) checker.new) }
    ensures stopped { OnErr result (GivenPart ⟦<Both<Sheet, CheckWord> as Measure>⟧
        checker.old input.now checker.new) }
{
    let mut printer = Printer::new(rt, explains)?;
    let mut file = FileInHand::None;
    for line in Lines::of(input) {
        let (next, reply) = file.answer(checker, line);
        file = next;
        let printed = match reply {
            Ok(reply) => printer.reply(line, &reply),
            Err(AllocError) => Err(AllocError.into()),
        };
        // no `?`: it would let the token of the file go
        if let Err(error) = printed {
            let _ = file.end(checker);
            return Err(error);
        }
    }
    match file {
        FileInHand::None => {}
        file => printer.told(file.end(checker))?,
    }
    printer.flush()
}

// Puts a call, if there is one, at the end of a list.
fn note<'c>(calls: &mut Vec<Call<'c>>, call: Option<Call<'c>>) -> Result<(), AllocError>
    ensures { OnOk result (calls_said calls.new.items ≡ calls_said calls.old.items ++ listed (option_map call_said call.entry)) }
{
    if let Some(call) = call {
        calls.push(call)?;
    }
    Ok(())
}

/// The calls that the lines of an input make on a new checker, whatever room it has for lives, and
/// the one that ends the file in hand at last.
pub fn calls_of_input<'c>(heap: Global, input: &'c [u8]) -> Result<Vec<Call<'c>>, AllocError>
    ensures calls { IfOk result (λ calls. (capacity : ℕ) →
        calls_said calls.items ≡ calls_of_input (empty_book capacity) input.now) }
    ensures files { IfOk result (λ calls. (capacity : ℕ) → EndsItsFiles (empty_book capacity)
        (calls_said calls.items) (end (empty_book capacity) (calls_said calls.items)).files) }
{
    // which file is in hand does not depend on the lives that are held
    let mut store = Chained::new(&mut []);
    with_mark(|mark| calls_with(mark, heap, &mut store, input))
}

// The same, on a checker of this mark.
fn calls_with<'c, S: Store>(
    mark: Mark<'_>,
    heap: Global,
    store: &mut S,
    input: &'c [u8],
) -> Result<Vec<Call<'c>>, AllocError>
    ensures { IfOk result (λ calls. calls_said calls.items ≡ calls_of_input (empty_book (S.room store.old)) input.now) }
{
    let mut checker = Checker::<S, Totals>::new(heap, store, mark)?;
    let mut calls = Vec::new(heap);
    let mut file = FileInHand::None;
    for line in Lines::of(input) {
        let call = file.call_of(line);
        let (next, reply) = file.answer(&mut checker, line);
        file = next;
        let noted = match reply {
            Ok(_) => note(&mut calls, call),
            Err(error) => Err(error),
        };
        if let Err(error) = noted {
            let _ = file.end(&mut checker);
            return Err(error);
        }
    }
    let noted = note(&mut calls, file.ending());
    let _ = file.end(&mut checker);
    noted?;
    Ok(calls)
}
