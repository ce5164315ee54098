// Why an action on a life, or a table, is refused.
ghost use Rattle.std.specs.Prelude.{◌≡◌, Some, None};
ghost use Rattle.life.specs.Faults.{life_number as number_of, life_field as field_of, life_code as published_code, table_number as table_number_of};

use text::Kind;

#[derive(Clone, Copy, PartialEq, Eq, Debug)]
pub enum LifeFault {
    // New on a standing life
    Standing,
    // Modify without an open life
    NotOpen,
    // Cancel without a standing life
    NoneToCancel,
    // Cancel of a cancelled life
    CancelledBefore,
    // Error without a standing life
    NoneToStrike,
    // Modify, Cancel or Error earlier than the life's last time
    Earlier,
}

// Its own methods, as each fault has: a trait over faults would say each contract again in its definitions, and each body again in an impl.
impl LifeFault {
    // The published number.
    pub fn number(&self) -> u8
        ensures { result ≡ number_of self.now }
    {
        match *self {
            LifeFault::Standing => 41,
            LifeFault::NotOpen => 42,
            LifeFault::NoneToCancel => 43,
            LifeFault::CancelledBefore => 44,
            LifeFault::NoneToStrike => 45,
            LifeFault::Earlier => 46,
        }
    }

    // The field of the line that is at fault.
    pub fn field(&self) -> u8
        ensures { result ≡ field_of self.now }
    {
        match *self {
            LifeFault::Earlier => 8,
            _ => 7,
        }
    }

    // The Agency's code for an order or a trade, if it has one.
    pub fn code(&self, kind: Kind) -> Option<&'static [u8]>
        ensures { elim result [ None ↦ published_code kind self.now ≡ None | Some text ↦ published_code kind self.now ≡ Some text.now ] }
    {
        match (*self, kind) {
            (LifeFault::CancelledBefore, Kind::Order) => Some(b"R2ODOICIMPIUQC"),
            (LifeFault::CancelledBefore, Kind::Trade) => Some(b"R1CDUTIDRCIMPDTUQC"),
            (LifeFault::NoneToStrike, Kind::Order) => Some(b"R1LIATORERR"),
            (LifeFault::NoneToStrike, Kind::Trade) => Some(b"R1LIATTRERR"),
            _ => None,
        }
    }
}

// A table has a length that its store does not allow.
#[derive(Clone, Copy, PartialEq, Eq, Debug)]
pub enum TableFault {
    Length,
}

impl TableFault {
    // The published number.
    pub fn number(&self) -> u8
        ensures { result ≡ table_number_of self.now }
    {
        match *self {
            TableFault::Length => 72,
        }
    }
}
