// Why a line makes no claim.
ghost use Rattle.std.specs.Prelude.{◌≡◌, Some, None};
ghost use Rattle.claims.specs.Faults.{line_fault_number, line_fault_field, line_fault_offset, line_fault_code};
ghost use Rattle.claims.specs.declared.faults.LineFault.TheVariants.{Read};

use contract::ListFault;
use line::ReadFault;

#[derive(Clone, Copy, PartialEq, Eq, Debug)]
pub enum LineFault {
    // it cannot be read
    Read(ReadFault),
    // its contract refuses it; the field at fault starts at the offset
    List { fault: ListFault, at: usize },
}

// Written out: a derived `From` would not tell which fault a `?` makes.
impl From<ReadFault> for LineFault {
    ghost from_gives = { λ e r. r ≡ Read e };

    fn from(fault: ReadFault) -> LineFault {
        LineFault::Read(fault)
    }
}

// Its own methods, as each fault has: a trait over faults would say each contract again in its definitions, and each body again in an impl.
impl LineFault {
    // The published number.
    pub fn number(&self) -> u16
        ensures { result ≡ line_fault_number self.now }
    {
        match *self {
            LineFault::Read(e) => e.number(),
            LineFault::List { fault, .. } => fault.number() as u16,
        }
    }

    // The field, or 0 where none is named: the number that is published for none.
    pub fn field(&self) -> u8
        ensures { result ≡ line_fault_field self.now }
    {
        match *self {
            LineFault::Read(e) => e.field(),
            LineFault::List { fault, .. } => fault.field(),
        }
    }

    // The offset of the field's first byte, or 0 where none is named.
    pub fn offset(&self) -> usize
        ensures { result ≡ line_fault_offset self.now }
    {
        match *self {
            LineFault::Read(e) => e.offset(),
            LineFault::List { at, .. } => at,
        }
    }

    // The Agency's code, if it has one.
    pub fn code(&self) -> Option<&'static [u8]>
        ensures { elim result [ None ↦ line_fault_code self.now ≡ None | Some text ↦ line_fault_code self.now ≡ Some text.now ] }
    {
        match *self {
            LineFault::Read(_) => None,
            LineFault::List { fault, .. } => Some(fault.code()),
        }
    }
}
