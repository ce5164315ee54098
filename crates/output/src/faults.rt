// Why a text cannot be written.
ghost use Rattle.std.specs.Prelude.{◌≡◌};
ghost use Rattle.output.specs.Faults.{fault_number};

#[derive(Clone, Copy, PartialEq, Eq, Debug)]
pub enum OutputFault {
    // the buffer is too short for the whole text
    TooShort,
}

impl OutputFault {
    // The published number.
    pub fn number(&self) -> u16
        ensures { result ≡ fault_number self.now }
    {
        match *self {
            OutputFault::TooShort => 71,
        }
    }
}
