// The file in hand, by its token, and what a command does with it.
ghost use Rattle.std.specs.Prelude.{◌≡◌, Some, IfOk, OnErr, option_map};
ghost use Rattle.commands.specs.Commands.{command_parts};
ghost use Rattle.book.specs.Book.{NameFile as NameCall, Identify as IdentifyCall};
ghost use Rattle.text.specs.declared.words.Kind.{Kind};
ghost use Rattle.calls.specs.Codes.{code_in, code_due};
ghost use Rattle.calls.specs.Faults.{fault_code};
ghost use Rattle.calls.specs.Held.{Stays};
ghost use Rattle.calls.specs.Said.{answer_said, call_said};
ghost use Rattle.session.specs.Session.{call_by, call_of_line, ending, kind_asked, NoFile, OnlyNamed};
ghost use Rattle.session.specs.Refusals.{refusal_code};
ghost use Rattle.session.specs.Held.{in_hand, told, Does, MayWant};

use crate::refusals::Refusal;
use calls::replies::{of_contract, of_ending, of_entity, of_judging};
use calls::{Answer, Call, Checker, Fault, Given, IdentifiedFile, NamedFile, NamingError};
use commands::Command;
use life::Store;
use measure::Measure;
use std::alloc::AllocError;

// No file is in hand, or one that is only named, or an identified one. It holds a token, so it can't be let go: each function hands it on.
pub(crate) enum FileInHand<'id> {
    None,
    Named(NamedFile<'id>),
    Identified(IdentifiedFile<'id>),
}

// What a command is answered.
pub(crate) type Told = Result<Given, Refusal>;

// The answer to a call.
pub(crate) fn answered(answer: Answer) -> Told
    ensures answer { told result ≡ answer_said answer }
    ensures code { code_in refusal_code result ≡ code_in fault_code answer }
{
    Ok(answer?)
}

fn name_file<'id, S: Store, M: Measure>(
    checker: &mut Checker<'id, '_, S, M>,
    name: &[u8],
) -> (FileInHand<'id>, Result<Told, AllocError>)
    ensures follows { IfOk result.1 (λ res. Does M.Measure checker.old NoFile (Some (NameCall name.now)) (told res) (in_hand result.0) checker.new) }
    ensures code { IfOk result.1 (λ res. (kind : Kind) → code_in refusal_code res ≡ code_due kind (told res)) }
    ensures memory { OnErr result.1 ((in_hand result.0 ≡ NoFile) × Stays M.Measure checker.old checker.new) }
    ensures wanting { OnErr result.1 (MayWant (Some (NameCall name.now))) }
{
    match checker.name_file(name) {
        Ok(file) => (FileInHand::Named(file), Ok(Ok(Given::Accepted))),
        Err(NamingError::Fault(fault)) => (
            FileInHand::None,
            Ok(Err(Refusal::Refused(Fault::Name(fault)))),
        ),
        Err(NamingError::NoMemory) => (FileInHand::None, Err(AllocError)),
    }
}

fn identify<'id, S: Store, M: Measure>(
    checker: &mut Checker<'id, '_, S, M>,
    file: NamedFile<'id>,
    code: &[u8],
) -> (FileInHand<'id>, Told)
    ensures code { (kind : Kind) → code_in refusal_code result.1 ≡ code_due kind (told result.1) }
    ensures follows { Does M.Measure checker.old (OnlyNamed file.entry.number) (Some (IdentifyCall file.entry.number code.now)) (told result.1) (in_hand result.0) checker.new }
{
    match checker.identify(file, code) {
        Ok(file) => (FileInHand::Identified(file), Ok(Given::Accepted)),
        Err((fault, file)) => (
            FileInHand::Named(file),
            Err(Refusal::Refused(Fault::Identify(fault))),
        ),
    }
}

impl<'id> FileInHand<'id> {
    // What a command does: the file that is in hand then, and what is answered.
    pub(crate) fn follow<S: Store, M: Measure>(
        self,
        checker: &mut Checker<'id, '_, S, M>,
        command: Command,
    ) -> (FileInHand<'id>, Result<Told, AllocError>)
        ensures follows { IfOk result.1 (λ res. Does M.Measure checker.old (in_hand self.entry) (call_by (in_hand self.entry) (command_parts command.entry)) (told res) (in_hand result.0) checker.new) }
        ensures code { IfOk result.1 (λ res. code_in refusal_code res ≡ code_due (kind_asked (command_parts command.entry)) (told res)) }
        ensures memory { OnErr result.1 ((in_hand result.0 ≡ in_hand self.entry) × Stays M.Measure checker.old checker.new) }
        ensures wanting { OnErr result.1 (MayWant (call_by (in_hand self.entry) (command_parts command.entry))) }
    {
        match (command, self) {
            (Command::NameFile(name), FileInHand::None) => name_file(checker, name),
            (Command::AddEntity(code), file) => {
                (file, Ok(answered(of_entity(checker.add_entity(code)))))
            }
            (Command::AddContract(text), file) => {
                (file, Ok(answered(of_contract(checker.add_contract(text)))))
            }
            (Command::Identify(code), FileInHand::Named(file)) => {
                let (file, told) = identify(checker, file, code);
                (file, Ok(told))
            }
            (Command::Judge(line), FileInHand::Identified(file)) => {
                let answer = of_judging(checker.judge(&file, line));
                (FileInHand::Identified(file), Ok(answered(answer)))
            }
            (Command::EndFile, file) => (FileInHand::None, Ok(file.end(checker))),
            (_, file) => (file, Ok(Err(Refusal::OutOfPlace))),
        }
    }

    // The call that ends the file that is in hand, if one is.
    pub(crate) fn ending(&self) -> Option<Call<'static>>
        ensures { option_map call_said result ≡ ending (in_hand self.now) }
    {
        match self {
            FileInHand::None => None,
            FileInHand::Named(file) => Some(Call::Withdraw(file.number())),
            FileInHand::Identified(file) => Some(Call::Close(file.number())),
        }
    }

    // The call that a line of input makes, if it makes one.
    pub(crate) fn call_of<'c>(&self, line: &'c [u8]) -> Option<Call<'c>>
        ensures { option_map call_said result ≡ call_of_line (in_hand self.now) line.now }
    {
        match (Command::read(line).ok()?, self) {
            (Command::AddEntity(code), _) => Some(Call::AddEntity(code)),
            (Command::AddContract(text), _) => Some(Call::AddContract(text)),
            (Command::NameFile(name), FileInHand::None) => Some(Call::NameFile(name)),
            (Command::Identify(code), FileInHand::Named(file)) => {
                Some(Call::Identify(file.number(), code))
            }
            (Command::Judge(line), FileInHand::Identified(file)) => {
                Some(Call::Judge(file.number(), line))
            }
            (Command::EndFile, _) => self.ending(),
            _ => None,
        }
    }

    // Ends the file that is in hand, if one is.
    pub(crate) fn end<S: Store, M: Measure>(self, checker: &mut Checker<'id, '_, S, M>) -> Told
        ensures follows { Does M.Measure checker.old (in_hand self.entry) (ending (in_hand self.entry)) (told result) NoFile checker.new }
        ensures code { (kind : Kind) → code_in refusal_code result ≡ code_due kind (told result) }
    {
        match self {
            FileInHand::None => Err(Refusal::OutOfPlace),
            FileInHand::Named(file) => answered(of_ending(checker.withdraw(file))),
            FileInHand::Identified(file) => answered(of_ending(checker.close(file))),
        }
    }
}
