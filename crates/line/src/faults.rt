// Why a report line cannot be read.
ghost use Rattle.std.specs.Prelude.{◌≡◌};
ghost use Rattle.line.specs.Faults.{fault_number, fault_field, fault_offset};

#[derive(Clone, Copy, PartialEq, Eq, Debug)]
pub enum ReadFault {
    // the line is empty, or too long
    Length,
    // it has not as many fields as it should
    Fields,
    // a field, counted from 1, lacks its form; its first byte stands at the offset
    Form { field: u8, at: usize },
}

// Its own methods, as each fault has: a trait over faults would say each contract again in its definitions, and each body again in an impl.
impl ReadFault {
    // The published number.
    pub fn number(&self) -> u16
        ensures { result ≡ fault_number self.now }
    {
        match *self {
            ReadFault::Length => 1,
            ReadFault::Fields => 2,
            ReadFault::Form { field, .. } => 10 + field as u16,
        }
    }

    // The field, or 0 where none is named. 0, and not an Option: it is the published number for no field.
    pub fn field(&self) -> u8
        ensures { result ≡ fault_field self.now }
    {
        match *self {
            ReadFault::Form { field, .. } => field,
            _ => 0,
        }
    }

    // The offset of the field's first byte, or 0 where none is named.
    pub fn offset(&self) -> usize
        ensures { result ≡ fault_offset self.now }
    {
        match *self {
            ReadFault::Form { at, .. } => at,
            _ => 0,
        }
    }
}
