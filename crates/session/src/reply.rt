// What a line of input is answered.
ghost use Rattle.std.specs.Prelude.{◌≡◌, IfOk, OnErr};
ghost use Rattle.calls.specs.Held.{Stays};
ghost use Rattle.session.specs.Held.{in_hand, Answers, TellsHeld, HasText, MayWant};
ghost use Rattle.session.specs.Session.{call_of_line, kind_of_line};

use crate::file_in_hand::{FileInHand, Told};
use crate::refusals::Refusal;
use calls::Checker;
use commands::Command;
use life::{CONTRACTS, Store};
use measure::{Both, CheckWord, Measure, Sheet};
use std::alloc::AllocError;

// Positions and a check word.
pub type Totals = Both<Sheet, CheckWord>;

// The answer to a call or its refusal, the positions of all contracts, or the check word.
#[derive(Clone, Copy)]
pub(crate) enum Reply {
    Told(Told),
    Positions([i64; CONTRACTS]),
    CheckWord(u64),
}

impl<'id> FileInHand<'id> {
    // Answers a line of input: the file that is in hand then, and the reply; or nothing, for want of memory, and nothing changes.
    pub(crate) fn answer<S: Store>(
        self,
        checker: &mut Checker<'id, '_, S, Totals>,
        line: &[u8],
    ) -> (FileInHand<'id>, Result<Reply, AllocError>)
        ensures follows { IfOk result.1 (λ reply. Answers ⟦<Both<Sheet, CheckWord> as Measure>⟧ checker.old (in_hand self.entry) line.now reply (in_hand result.0) checker.new) }
        ensures held { IfOk result.1 (λ reply. TellsHeld ⟦<Both<Sheet, CheckWord> as Measure>⟧ checker.old reply) }
        ensures text { IfOk result.1 (λ reply. HasText (kind_of_line line.now) reply) }
        ensures memory { OnErr result.1 ((in_hand result.0 ≡ in_hand self.entry) × Stays ⟦<Both<Sheet, CheckWord> as Measure>⟧ checker.old checker.new) }
        ensures wanting { OnErr result.1 (MayWant (call_of_line (in_hand self.entry) line.now)) }
    {
        match Command::read(line) {
            Err(fault) => (self, Ok(Reply::Told(Err(Refusal::Unread(fault))))),
            Ok(Command::Positions) => (self, Ok(Reply::Positions(checker.positions()))),
            Ok(Command::CheckWord) => {
                let (_, word) = checker.total().parts();
                (self, Ok(Reply::CheckWord(word.word)))
            }
            Ok(command) => {
                let (file, told) = self.follow(checker, command);
                match told {
                    Ok(told) => (file, Ok(Reply::Told(told))),
                    Err(AllocError) => (file, Err(AllocError)),
                }
            }
        }
    }
}
