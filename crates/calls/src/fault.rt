// Why a call is refused, whichever it is.
ghost use Rattle.std.specs.Prelude.{◌≡◌, Some, None};
ghost use Rattle.calls.specs.Faults.{fault_number, fault_field, fault_offset, fault_code};

use crate::faults::JudgeFault;
use crate::files::{IdentifyFault, PlaceFault};
use claims::LineFault;
use contract::ContractFault;
use filing::{EntityFault, NameFault};

#[derive(Clone, Copy, PartialEq, Eq, Debug)]
pub enum Fault {
    // in adding an entity
    Entity(EntityFault),
    // in adding a contract
    Contract(ContractFault),
    // in naming a file
    Name(NameFault),
    // in identifying one
    Identify(IdentifyFault),
    // in withdrawing or closing one
    Place(PlaceFault),
    // in judging a line
    Judge(JudgeFault),
    // in looking up
    LookUp(LineFault),
}

// Its own methods, as each fault has: a trait over faults would say each contract again in its definitions, and each body again in an impl.
impl Fault {
    // The published number.
    pub fn number(&self) -> u16
        ensures { result ≡ fault_number self.now }
    {
        match *self {
            Fault::Entity(fault) => u16::from(fault.number()),
            Fault::Contract(fault) => u16::from(fault.number()),
            Fault::Name(fault) => u16::from(fault.number()),
            Fault::Identify(fault) => u16::from(fault.number()),
            Fault::Place(fault) => u16::from(fault.number()),
            Fault::Judge(fault) => fault.number(),
            Fault::LookUp(fault) => fault.number(),
        }
    }

    // The field, or 0 where none is named: the number that is published for none.
    pub fn field(&self) -> u8
        ensures { result ≡ fault_field self.now }
    {
        match *self {
            Fault::Contract(fault) => fault.field(),
            Fault::Judge(fault) => fault.field(),
            Fault::LookUp(fault) => fault.field(),
            _ => 0,
        }
    }

    // The offset of the field's first byte, or 0 where none is named.
    pub fn offset(&self) -> usize
        ensures { result ≡ fault_offset self.now }
    {
        match *self {
            Fault::Contract(fault) => fault.offset(),
            Fault::Judge(fault) => fault.offset(),
            Fault::LookUp(fault) => fault.offset(),
            _ => 0,
        }
    }

    // The Agency's code, if it has one.
    pub fn code(&self) -> Option<&'static [u8]>
        ensures { elim result [ None ↦ fault_code self.now ≡ None | Some text ↦ fault_code self.now ≡ Some text.now ] }
    {
        match *self {
            Fault::Contract(fault) => fault.code(),
            Fault::Identify(fault) => fault.code(),
            Fault::Judge(fault) => fault.code(),
            Fault::LookUp(fault) => fault.code(),
            _ => None,
        }
    }
}
