// Judging lines.
ghost use Rattle.std.specs.Prelude.{◌≡◌, IfErr, OnErr};
ghost use Rattle.book.specs.Book.{Judge as JudgeCall};
ghost use Rattle.calls.specs.Codes.{code_in, code_due, kind_of, IsOfKind};
ghost use Rattle.calls.specs.Faults.{judge_code};
ghost use Rattle.calls.specs.Held.{book_in, Continues, one_refused_in, KeepsPlaces};
ghost use Rattle.calls.specs.Said.{judge_answer};
ghost use Rattle.calls.specs.Steps.{Step, Tried};

use crate::checker::Checker;
use crate::faults::JudgeFault;
use crate::files::IdentifiedFile;
use claims::claim;
use life::Store;
use line::field_offset;
use measure::Measure;

impl<'id, 's, S: Store, M: Measure> Checker<'id, 's, S, M> {
    /// Judges a line in an identified file, where it counts. Refused, the checker is what it was,
    /// but that one line more is refused in its file, if that took it.
    pub fn judge(&mut self, file: &IdentifiedFile<'id>, line: &[u8]) -> Result<(), JudgeFault>
        ensures follows { Continues M.Measure self.old (JudgeCall file.now.number line.now) (judge_answer result) self.new }
        ensures refused { OnErr result (self.new ≡ one_refused_in self.old file.now.number) }
        ensures code { code_in judge_code result ≡ code_due (kind_of line.now) (judge_answer result) }
        ensures kind { IfErr result (λ fault. IsOfKind (kind_of line.now) fault) }
        ensures places { KeepsPlaces self.old self.new }
    {
        self.judge_at(file.number(), line)
    }

    // Judges a line in the file of a number.
    pub(crate) fn judge_at(&mut self, number: usize, line: &[u8]) -> Result<(), JudgeFault>
        ensures step { Step M.Measure (book_in self.old) self.old.register.total (JudgeCall number line.now) (judge_answer result) (book_in self.new) self.new.register.total }
        ensures refused { OnErr result (self.new ≡ one_refused_in self.old number) }
        ensures code { code_in judge_code result ≡ code_due (kind_of line.now) (judge_answer result) }
        ensures kind { IfErr result (λ fault. IsOfKind (kind_of line.now) fault) }
        ensures places { KeepsPlaces self.old self.new }
    {
        let answer = self.try_line(number, line);
        self.files.count_line(number, answer.is_ok());
        answer
    }

    // What becomes of the lives, before the line is counted.
    fn try_line(&mut self, number: usize, line: &[u8]) -> Result<(), JudgeFault>
        ensures tried { Tried M.Measure (book_in self.old) self.old.register.total number line.now (judge_answer result) (book_in self.new) self.new.register.total }
        ensures refused { OnErr result (self.new ≡ self.old) }
        ensures code { code_in judge_code result ≡ code_due (kind_of line.now) (judge_answer result) }
        ensures kind { IfErr result (λ fault. IsOfKind (kind_of line.now) fault) }
        ensures files { self.new.files ≡ self.old.files }
    {
        self.files.takes(number)?;
        let claim = claim(&self.contracts, line)?;
        // A match, and not `map_err`: what the closure answers would have to be told again in the proof.
        match self.register.judge(&claim.key, claim.action, &claim.told) {
            Ok(()) => Ok(()),
            Err(fault) => Err(JudgeFault::Act {
                fault,
                kind: claim.key.kind,
                at: field_offset(line, fault.field()),
            }),
        }
    }
}
