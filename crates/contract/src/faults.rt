// Why a contract is not added, and why a line has no contract number.
ghost use Rattle.std.specs.Prelude.{◌≡◌, Some, None};
ghost use Rattle.contract.specs.Faults.{contract_fault_number as number_of, contract_fault_field as field_of, contract_fault_offset as offset_of, contract_fault_code as contract_code_of, list_fault_number as list_number_of, list_fault_field as list_field_of, list_fault_code as list_code_of};
ghost use Rattle.contract.specs.declared.faults.ContractFault.TheVariants.{Form};

use line::ReadFault;

#[derive(Clone, Copy, PartialEq, Eq, Debug)]
pub enum ContractFault {
    // the text has not four fields, or one of them lacks its form
    Form(ReadFault),
    // its id is listed already
    Listed,
    // its type needs an option style, which would stand at the offset
    Style { at: usize },
    // an index name stands twice in the field at the offset
    NameTwice { at: usize },
    // as many contracts or names are held as may be
    Full,
}

// Written out: its ghost member tells a clause which fault a `?` makes of a fault in reading.
impl From<ReadFault> for ContractFault {
    ghost from_gives = { λ e r. r ≡ Form e };

    fn from(fault: ReadFault) -> ContractFault {
        ContractFault::Form(fault)
    }
}

// Written out for each enum: `code` answers in different ways and `offset` is of one alone, and a trait of `number` and `field` would be no shorter.
impl ContractFault {
    // The published number.
    pub fn number(&self) -> u8
        ensures { result ≡ number_of self.now }
    {
        match *self {
            ContractFault::Form(_) => 51,
            ContractFault::Listed => 52,
            ContractFault::Style { .. } => 53,
            ContractFault::NameTwice { .. } => 54,
            ContractFault::Full => 55,
        }
    }

    // The field, or 0 where none is named. 0, and not an Option: it is the number that is published for no field.
    pub fn field(&self) -> u8
        ensures { result ≡ field_of self.now }
    {
        match *self {
            ContractFault::Form(e) => e.field(),
            ContractFault::Listed => 1,
            ContractFault::Style { .. } => 3,
            ContractFault::NameTwice { .. } => 4,
            ContractFault::Full => 0,
        }
    }

    // The offset of the field's first byte, or 0 where none is named. 0, and not an Option: it is the number that is
    // published for no offset.
    pub fn offset(&self) -> usize
        ensures { result ≡ offset_of self.now }
    {
        match *self {
            ContractFault::Form(e) => e.offset(),
            ContractFault::Style { at } => at,
            ContractFault::NameTwice { at } => at,
            _ => 0,
        }
    }

    // The Agency's code, if it has one.
    pub fn code(&self) -> Option<&'static [u8]>
        ensures { elim result [ None ↦ contract_code_of self.now ≡ None | Some text ↦ contract_code_of self.now ≡ Some text.now ] }
    {
        match *self {
            ContractFault::Style { .. } => Some(b"R10D0S0PTM"),
            ContractFault::NameTwice { .. } => Some(b"AT1F25E1"),
            _ => None,
        }
    }
}

#[derive(Clone, Copy, PartialEq, Eq, Debug)]
pub enum ListFault {
    // the contract is not listed
    NotListed,
    // an index name is not one of the contract's
    OtherName,
    // no index name, where the contract has two or more
    NoName,
}

impl ListFault {
    // The published number.
    pub fn number(&self) -> u8
        ensures { result ≡ list_number_of self.now }
    {
        match *self {
            ListFault::NotListed => 31,
            ListFault::OtherName => 32,
            ListFault::NoName => 33,
        }
    }

    // The field of the line.
    pub fn field(&self) -> u8
        ensures { result ≡ list_field_of self.now }
    {
        match *self {
            ListFault::NotListed => 3,
            ListFault::OtherName => 11,
            ListFault::NoName => 11,
        }
    }

    // The Agency's code.
    pub fn code(&self) -> &'static [u8]
        ensures { result.now ≡ list_code_of self.now }
    {
        match *self {
            ListFault::NotListed => b"R1CTCITRAIDE",
            ListFault::OtherName => b"AT1F25E2",
            ListFault::NoName => b"AT1F25E3",
        }
    }
}
