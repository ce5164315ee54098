// Adding contracts, and what a read line owes to the list.
ghost use Rattle.std.specs.Prelude.{◌≡◌, ◌+◌, ◌<◌, ◌≤◌, false, not, ◌&&◌, ◌||◌, [], length, is_some, IfSome, IfOk, OnOk, position, ◌==◌, nat_le, nat_lt};
ghost use Rattle.text.specs.Listings.{listing};
ghost use Rattle.text.specs.Rows.{first_fit, settled_by};
ghost use Rattle.line.specs.Reports.{said};
ghost use Rattle.contract.specs.ContractList.{listed, names_in, WithinLimits, needs_style, listing_rows, adding, added, due};
ghost use Rattle.contract.specs.Held.{names_of, contract_of, has_id, added_in, found_in, number_in};

use crate::faults::{ContractFault, ListFault};
use crate::held::{HeldContract, NameList};
use crate::list::ContractList;
use crate::names::{has_all, has_twice};
use crate::offers::read_contract;
use line::{Report, field_offset};
use std::alloc::{AllocError, Global};
use text::{Names, Text};

// The most contracts, and the most index names of all contracts together.
const MOST_CONTRACTS: usize = 63;

const MOST_NAMES: usize = 255;

// A contract of the list with its number.
#[derive(Clone, Copy)]
pub(crate) struct Found<'a> {
    number: u8,
    contract: &'a HeldContract,
}

impl HeldContract {
    // Whether its type needs an option style, and it has none.
    fn lacks_style(&self) -> bool
        ensures { result ≡ (needs_style (contract_of self.now).contract_type && not (is_some (contract_of self.now).style)) }
    {
        self.kind.needs_style() && self.style.is_none()
    }

    // Whether a line lacks an index name: a contract with two or more wants one said.
    fn wants_name(&self, names: Names) -> bool
        ensures { result ≡ (nat_le 2 (length (contract_of self.now).index_names) && length (listing names.entry) == 0) }
    {
        self.names.as_slice().len() >= 2 && names.first().is_none()
    }
}

// Where the contract with an id stands. The id is made a text first: texts are compared over all
// their places at once, and slices byte by byte (docs/FIGURES.md).
fn place_of(contracts: &[HeldContract], id: &[u8]) -> Option<usize>
    ensures { result ≡ position (has_id id.now) contracts.now }
{
    let id = Text::new(id)?;
    contracts.iter().position(|contract| contract.id == id)
}

impl ContractList {
    // A list with no contract, and with room for all that it may have.
    pub fn new(heap: Global) -> Result<ContractList, AllocError>
        ensures { IfOk result (λ list. list ≡ []) }
    {
        let contracts = Vec::with_capacity(heap, MOST_CONTRACTS)?;
        Ok(ContractList { contracts })
    }

    // The contract with an id.
    fn find(&self, id: &[u8]) -> Option<Found<'_>>
        ensures told { found_in result ≡ listed self.now id.now }
        ensures small { IfSome result (λ found. found.number < 64) }
    {
        let at = place_of(&self.contracts, id)?;
        Some(Found {
            number: at as u8 + 1,
            contract: &self.contracts[at],
        })
    }

    // Whether there is a contract with an id.
    fn lists(&self, id: &[u8]) -> bool
        ensures { result ≡ is_some (listed self.now id.now) }
    {
        self.find(id).is_some()
    }

    // How many index names the contracts have in all.
    fn name_count(&self) -> usize
        ensures value { result ≡ names_in self.now }
        ensures small { result ≤ 504 }
    {
        self.contracts
            .iter()
            .map(|contract| contract.names.as_slice().len())
            .sum()
    }

    // Whether there is no room for a contract with these names.
    fn is_full(&self, names: &NameList) -> bool
        ensures value { result ≡ (nat_le 63 (length self.now) || nat_lt 255 (names_in self.now + length (names_of names.now))) }
        ensures room { result ≡ false → length self.now < 63 }
    {
        self.contracts.len() >= MOST_CONTRACTS
            || self.name_count() + names.as_slice().len() > MOST_NAMES
    }

    // Whether a contract may be added; its text tells the offsets of its fields.
    fn check(&self, contract: &HeldContract, text: &[u8]) -> Result<(), ContractFault>
        ensures told { added_in result ≡ settled_by text.now tt (first_fit listing_rows (self.now, contract_of contract.now)) }
        ensures room { OnOk result (length self.now < 63) }
    {
        if self.lists(contract.id.as_slice()) {
            return Err(ContractFault::Listed);
        }
        if contract.lacks_style() {
            return Err(ContractFault::Style {
                at: field_offset(text, 3),
            });
        }
        if has_twice(contract.names.as_slice()) {
            return Err(ContractFault::NameTwice {
                at: field_offset(text, 4),
            });
        }
        if self.is_full(&contract.names) {
            return Err(ContractFault::Full);
        }
        Ok(())
    }

    // Adds a contract by its text: its number, from 1 in the order of adding, or the first rule that it breaks.
    pub fn add(&mut self, text: &[u8]) -> Result<u8, ContractFault>
        ensures told { added_in result ≡ adding self.old text.now }
        ensures list { self.new ≡ added self.old text.now }
        ensures limits { WithinLimits self.new }
    {
        let _ = &self.contracts;
        let contract = read_contract(text)?;
        self.check(&contract, text)?;
        self.contracts.push_reserved(contract);
        Ok(self.contracts.len() as u8)
    }

    // The contract number of a read line, or the first rule of the list that it breaks. At XBIL the number is 0 and no rule applies.
    pub fn number_of(&self, report: &Report) -> Result<u8, ListFault>
        ensures told { number_in result ≡ due self.now (said report.now) }
        ensures small { IfOk result (λ n. n < 64) }
        ensures limits { WithinLimits self.now }
    {
        let _ = &self.contracts;
        if report.venue == b"XBIL".as_slice() {
            return Ok(0);
        }
        let found = self.find(report.contract).ok_or(ListFault::NotListed)?;
        if !has_all(found.contract.names.as_slice(), report.names) {
            return Err(ListFault::OtherName);
        }
        if found.contract.wants_name(report.names) {
            return Err(ListFault::NoName);
        }
        Ok(found.number)
    }
}
