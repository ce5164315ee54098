// Calls given as data.
ghost use Rattle.std.specs.Prelude.{◌≡◌, IfOk, OnErr};
ghost use Rattle.book.specs.Book.{NameFile, Identify as IdentifyCall, Withdraw as WithdrawCall, Close as CloseCall};
ghost use Rattle.text.specs.declared.words.Kind.{Kind};
ghost use Rattle.calls.specs.Codes.{code_in, code_due, kind_in, reply_code, reply_code_due, TellsKind, ReplyTellsKind};
ghost use Rattle.calls.specs.Faults.{fault_code};
ghost use Rattle.calls.specs.Held.{Continues, Replies, Stays, NamesFile};
ghost use Rattle.calls.specs.Said.{call_said, answer_said, reply_said, identify_answer, ending_answer};

use crate::answer::{Answer, Reply};
use crate::call::Call;
use crate::checker::Checker;
use crate::files::{IdentifyFault, PlaceFault, Receipt};
use crate::replies::{
    copied, of_contract, of_ending, of_entity, of_finding, of_identifying, of_judging, of_naming,
};
use life::Store;
use measure::Measure;
use std::alloc::AllocError;

impl<'id, 's, S: Store, M: Measure> Checker<'id, 's, S, M> {
    fn identify_at(&mut self, number: usize, code: &[u8]) -> Result<(), IdentifyFault>
        ensures { Continues M.Measure self.old (IdentifyCall number code.now) (identify_answer result) self.new }
    {
        self.files.identify_at(number, &self.entities, code)
    }

    fn withdraw_at(&mut self, number: usize) -> Result<Receipt, PlaceFault>
        ensures { Continues M.Measure self.old (WithdrawCall number) (ending_answer result) self.new }
    {
        self.files.withdraw_at(number)
    }

    fn close_at(&mut self, number: usize) -> Result<Receipt, PlaceFault>
        ensures { Continues M.Measure self.old (CloseCall number) (ending_answer result) self.new }
    {
        self.files.close_at(number)
    }

    // Names a file, whose number is how many were named before. For want of memory nothing changes.
    fn name_next(&mut self, name: &[u8]) -> Result<Answer, AllocError>
        ensures follows { IfOk result (λ answer. Continues M.Measure self.old (NameFile name.now) (answer_said answer) self.new) }
        ensures memory { OnErr result (Stays M.Measure self.old self.new) }
        ensures wanting { OnErr result (NamesFile (NameFile name.now)) }
        ensures code { IfOk result (λ answer. (kind : Kind) → code_in fault_code answer ≡ code_due kind (answer_said answer)) }
        ensures kinds { IfOk result (λ answer. (kind : Kind) → TellsKind kind answer) }
    {
        of_naming(self.files.name_next(name))
    }

    // Answers a call. For every list of calls that led here, the answer is the book's after them, and they and this call lead to what is now
    // here. Want of memory, which only naming a file can meet, is no answer, and changes nothing.
    pub(crate) fn call(&mut self, call: &Call) -> Result<Reply<M>, AllocError>
        ensures follows { IfOk result (λ reply. Replies M.Measure self.old (call_said call.now) (reply_said reply) self.new) }
        ensures memory { OnErr result (Stays M.Measure self.old self.new) }
        ensures wanting { OnErr result (NamesFile (call_said call.now)) }
        ensures code { IfOk result (λ reply. reply_code reply ≡ reply_code_due (kind_in (call_said call.now)) (reply_said reply)) }
        ensures kind { IfOk result (λ reply. ReplyTellsKind (kind_in (call_said call.now)) reply) }
    {
        let answer = match *call {
            Call::AddEntity(code) => of_entity(self.add_entity(code)),
            Call::AddContract(text) => of_contract(self.add_contract(text)),
            Call::NameFile(name) => self.name_next(name)?,
            Call::Identify(number, code) => of_identifying(self.identify_at(number, code)),
            Call::Withdraw(number) => of_ending(self.withdraw_at(number)),
            Call::Close(number) => of_ending(self.close_at(number)),
            Call::Judge(number, line) => of_judging(self.judge_at(number, line)),
            Call::LookUp(line) => of_finding(self.look_up(line)),
            Call::Total => return Ok(Reply::Total(copied(self.register.total()))),
        };
        Ok(Reply::Answered(answer))
    }
}
