// The answers of the calls, in one type.
ghost use Rattle.std.specs.Prelude.{◌≡◌, true, false, None, IfOk, MatchResult};
ghost use Rattle.text.specs.declared.words.Kind.{Kind};
ghost use Rattle.contract.specs.Faults.{contract_fault_code};
ghost use Rattle.calls.specs.FileAnswers.{had_memory};
ghost use Rattle.calls.specs.FileFaults.{identify_code};
ghost use Rattle.claims.specs.Faults.{line_fault_code};
ghost use Rattle.calls.specs.Codes.{code_in, code_due, TellsKind};
ghost use Rattle.calls.specs.declared.answer.Given.TheVariants as given;
ghost use Rattle.calls.specs.declared.fault.Fault.TheVariants as fault;
ghost use Rattle.calls.specs.Faults.{fault_code, judge_code};
ghost use Rattle.calls.specs.Said.{answer_from, answer_said, entity_answer, contract_answer, naming_answer, identify_answer, ending_answer, judge_answer, finding_answer};

use crate::answer::{Answer, Given};
use crate::fault::Fault;
use crate::faults::JudgeFault;
use crate::files::{IdentifyFault, NamingError, PlaceFault, Receipt};
use claims::LineFault;
use contract::ContractFault;
use filing::EntityFault;
use life::Life;
use measure::Measure;
use std::alloc::AllocError;

// Each call has an answer of its own in the contracts, so each has its own function here. A `From` for each of the seven faults would be longer
// than what it would save.

pub fn of_entity(res: Result<(), EntityFault>) -> Answer
    ensures whole { result ≡ answer_from (λ _. given.Accepted) fault.Entity res }
    ensures answer { answer_said result ≡ entity_answer res }
    ensures code { code_in fault_code result ≡ None }
{
    match res {
        Ok(()) => Ok(Given::Accepted),
        Err(fault) => Err(Fault::Entity(fault)),
    }
}

pub fn of_contract(res: Result<u8, ContractFault>) -> Answer
    ensures whole { result ≡ answer_from (λ _. given.Accepted) fault.Contract res }
    ensures answer { answer_said result ≡ contract_answer res }
    ensures code { code_in fault_code result ≡ code_in contract_fault_code res }
{
    match res {
        Ok(_) => Ok(Given::Accepted),
        Err(fault) => Err(Fault::Contract(fault)),
    }
}

// Want of memory is no answer.
pub(crate) fn of_naming(res: Result<usize, NamingError>) -> Result<Answer, AllocError>
    ensures answer { MatchResult result (λ answer. (had_memory res ≡ true) × (answer_said answer ≡ naming_answer res)) (λ _. had_memory res ≡ false) }
    ensures code { IfOk result (λ answer. (kind : Kind) → code_in fault_code answer ≡ code_due kind (answer_said answer)) }
    ensures kinds { IfOk result (λ answer. (kind : Kind) → TellsKind kind answer) }
{
    match res {
        Ok(_) => Ok(Ok(Given::Accepted)),
        Err(NamingError::Fault(fault)) => Ok(Err(Fault::Name(fault))),
        Err(NamingError::NoMemory) => Err(AllocError),
    }
}

pub(crate) fn of_identifying(res: Result<(), IdentifyFault>) -> Answer
    ensures whole { result ≡ answer_from (λ _. given.Accepted) fault.Identify res }
    ensures answer { answer_said result ≡ identify_answer res }
    ensures code { code_in fault_code result ≡ code_in identify_code res }
{
    match res {
        Ok(()) => Ok(Given::Accepted),
        Err(fault) => Err(Fault::Identify(fault)),
    }
}

pub fn of_ending(res: Result<Receipt, PlaceFault>) -> Answer
    ensures whole { result ≡ answer_from given.Receipt fault.Place res }
    ensures answer { answer_said result ≡ ending_answer res }
    ensures code { code_in fault_code result ≡ None }
{
    match res {
        Ok(receipt) => Ok(Given::Receipt(receipt)),
        Err(fault) => Err(Fault::Place(fault)),
    }
}

pub fn of_judging(res: Result<(), JudgeFault>) -> Answer
    ensures whole { result ≡ answer_from (λ _. given.Accepted) fault.Judge res }
    ensures answer { answer_said result ≡ judge_answer res }
    ensures code { code_in fault_code result ≡ code_in judge_code res }
{
    match res {
        Ok(()) => Ok(Given::Accepted),
        Err(fault) => Err(Fault::Judge(fault)),
    }
}

pub(crate) fn of_finding(res: Result<Option<Life>, LineFault>) -> Answer
    ensures whole { result ≡ answer_from given.Found fault.LookUp res }
    ensures answer { answer_said result ≡ finding_answer res }
    ensures code { code_in fault_code result ≡ code_in line_fault_code res }
{
    match res {
        Ok(life) => Ok(Given::Found(life)),
        Err(fault) => Err(Fault::LookUp(fault)),
    }
}

// A total once more: zero joined to it. A bound `M: Clone` would ask more of callers.
pub(crate) fn copied<M: Measure>(total: &M) -> M
    ensures { result ≡ total.now }
{
    let mut copy = M::zero();
    copy.join(total);
    copy
}
