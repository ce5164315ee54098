// Making a checker; adding entities and contracts; looking up; and the total.
ghost use Rattle.std.specs.Prelude.{◌≡◌, ℕ, ◌+◌, List, [], length, IfOk, OnErr};
ghost use Rattle.book.specs.Book.{Call, AddEntity, AddContract, LookUp, Total as TotalCall, Accepted as AcceptedAnswer};
ghost use Rattle.claims.specs.Faults.{line_fault_code};
ghost use Rattle.contract.specs.ContractList.{WithinLimits};
ghost use Rattle.filing.specs.Entities.{CodesWithin};
ghost use Rattle.calls.specs.Codes.{code_in, code_due, kind_of};
ghost use Rattle.calls.specs.Follows.{book_after, book_total};
ghost use Rattle.calls.specs.Held.{Led, Continues, KeepsPlaces};
ghost use Rattle.calls.specs.Said.{entity_answer, contract_answer, finding_answer};

use crate::checker::Checker;
use crate::files::{FileList, Mark};
use claims::{LineFault, claim};
use contract::{ContractFault, ContractList};
use filing::{EntityFault, EntityList};
use life::{Life, Store};
use measure::Measure;
use register::Register;
use std::alloc::{AllocError, Global};

impl<'id, 's, S: Store, M: Measure> Checker<'id, 's, S, M> {
    /// A checker that has had no calls, with room for as many lives as the store, which is emptied.
    /// The tokens of its files have the lifetime of its mark. Memory is wanted for the lists alone.
    pub fn new(
        heap: Global,
        store: &'s mut S,
        mark: Mark<'id>,
    ) -> Result<Checker<'id, 's, S, M>, AllocError>
        ensures { IfOk result (λ c. Led M.Measure (S.room store.old) [] c) }
    {
        let entities = EntityList::new(heap)?;
        let contracts = ContractList::new(heap)?;
        let files = FileList::new(heap);
        let register = Register::new(store);
        Ok(Checker {
            register,
            entities,
            contracts,
            files,
            brand: mark.brand(),
        })
    }

    /// Adds a reporting entity by its ACER code, or tells the first rule that it breaks, and then
    /// the checker is what it was.
    pub fn add_entity(&mut self, code: &[u8]) -> Result<(), EntityFault>
        ensures follows { Continues M.Measure self.old (AddEntity code.now) (entity_answer result) self.new }
        ensures refused { OnErr result (self.new ≡ self.old) }
        ensures places { KeepsPlaces self.old self.new }
        ensures lives { self.new.register ≡ self.old.register }
        ensures limits { CodesWithin self.new.entities }
    {
        self.entities.add(code)
    }

    /// Adds a contract by its text: its number, which is one more than how many were listed, or the
    /// first rule that it breaks, and then the checker is what it was.
    pub fn add_contract(&mut self, text: &[u8]) -> Result<u8, ContractFault>
        ensures number { IfOk result (λ n. n ≡ length self.old.contracts + 1) }
        ensures follows { Continues M.Measure self.old (AddContract text.now) (contract_answer result) self.new }
        ensures refused { OnErr result (self.new ≡ self.old) }
        ensures places { KeepsPlaces self.old self.new }
        ensures lives { self.new.register ≡ self.old.register }
        ensures limits { WithinLimits self.new.contracts }
    {
        self.contracts.add(text)
    }

    /// The standing life of a line's key, or none; or the first rule of form or contract that the
    /// line breaks.
    pub fn look_up(&self, line: &[u8]) -> Result<Option<Life>, LineFault>
        ensures follows { Continues M.Measure self.now (LookUp line.now) (finding_answer result) self.now }
        ensures code { code_in line_fault_code result ≡ code_due (kind_of line.now) (finding_answer result) }
    {
        let claim = claim(&self.contracts, line)?;
        Ok(self.register.find(&claim.key))
    }

    /// The total: the joined weights of the open lives.
    pub fn total(&self) -> &M
        ensures told { (capacity : ℕ) (past : List Call) → Led M.Measure capacity past self.now → result.now ≡ book_total M.Measure (book_after capacity past) }
        ensures follows { Continues M.Measure self.now TotalCall AcceptedAnswer self.now }
    {
        self.register.total()
    }
}
