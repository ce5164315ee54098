// Whole lists of calls.
ghost use Rattle.std.specs.Prelude.{ℕ, List, [], ◌∷◌, ◌++◌, IfOk, OnOk};
ghost use Rattle.book.specs.Book.{Call as BookCall};
ghost use Rattle.book.specs.FileLaws.{FilesCount};
ghost use Rattle.calls.specs.Held.{Led, HasPlaces, names_in};
ghost use Rattle.calls.specs.Runs.{HasRun, answered_calls, EachLifeTold};
ghost use Rattle.calls.specs.Said.{call_said, calls_said};

use crate::answer::{Given, Reply};
use crate::call::Call;
use crate::checker::Checker;
use crate::completed::CompletedRun;
use crate::files::Mark;
use life::Store;
use measure::Measure;
use std::alloc::{AllocError, Global};

impl<'s, S: Store, M: Measure> CompletedRun<'s, S, M> {
    // A run that has had no calls, with places for the files that these name.
    fn begin(
        heap: Global,
        store: &'s mut S,
        calls: &[Call],
    ) -> Result<CompletedRun<'s, S, M>, AllocError>
        ensures runs { IfOk result (λ run. HasRun M.Measure (S.room store.old) [] run) }
        ensures places { IfOk result (λ run. HasPlaces run.checker (names_in (calls_said calls.now))) }
    {
        let mut checker = Checker::new(heap, store, Mark::new())?;
        let names = calls
            .iter()
            .filter(|call| matches!(call, Call::NameFile(_)));
        checker.reserve(names.count())?;
        Ok(CompletedRun {
            checker,
            answers: Vec::with_capacity(heap, calls.len())?,
            totals: Vec::new(heap),
        })
    }

    // One call more.
    fn step(&mut self, call: &Call) -> Result<(), AllocError>
        ensures { OnOk result ((capacity : ℕ) (past : List BookCall) → HasRun M.Measure capacity past self.old → HasRun M.Measure capacity (past ++ call_said call.now ∷ []) self.new) }
    {
        match self.checker.call(call)? {
            Reply::Answered(answer) => self.answers.push(answer)?,
            Reply::Total(total) => {
                self.answers.push(Ok(Given::Accepted))?;
                self.totals.push(total)?;
            }
        }
        Ok(())
    }
}

impl<'s, S: Store, M: Measure> Checker<'static, 's, S, M> {
    /// A new checker over the store, and its answers to a whole list of calls. The lines judged in
    /// a file are the calls on it that were answered neither 66 nor 9; a file ends at most once,
    /// and its receipt has its counts. Each life is what the accepted lines of its key tell. Places
    /// for files and answers are reserved first; where memory is wanting, there is no run.
    pub fn run(
        heap: Global,
        store: &'s mut S,
        calls: &[Call],
    ) -> Result<CompletedRun<'s, S, M>, AllocError>
        ensures runs { IfOk result (λ run. HasRun M.Measure (S.room store.old) (calls_said calls.now) run) }
        ensures files { IfOk result (λ run. FilesCount (answered_calls calls.now run) run.checker.files.files) }
        ensures lives { IfOk result (λ run. EachLifeTold (S.room store.old) (calls_said calls.now) run.checker.register.lives) }
    {
        let mut run = CompletedRun::begin(heap, store, calls)?;
        for call in calls {
            run.step(call)?;
        }
        Ok(run)
    }
}
