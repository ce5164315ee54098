// Why a call on a file is refused.
ghost use Rattle.std.specs.Prelude.{◌≡◌, Some, None};
ghost use Rattle.calls.specs.FileFaults.{identify_number, place_number, take_number, identify_code};
ghost use Rattle.calls.specs.declared.files.faults.NamingError.TheVariants.{Fault, NoMemory};

use filing::NameFault;
use std::alloc::AllocError;

// Why a file is not named: by its name, or for want of memory.
#[derive(Clone, Copy, PartialEq, Eq, Debug)]
pub enum NamingError {
    Fault(NameFault),
    NoMemory,
}

// Written out: a derived `From` would not tell which error a `?` makes.
impl From<NameFault> for NamingError {
    ghost from_gives = { λ e r. r ≡ Fault e };

    fn from(fault: NameFault) -> NamingError {
        NamingError::Fault(fault)
    }
}

impl From<AllocError> for NamingError {
    ghost from_gives = { λ _ r. r ≡ NoMemory };

    fn from(_error: AllocError) -> NamingError {
        NamingError::NoMemory
    }
}

// Why a file is not identified.
#[derive(Clone, Copy, PartialEq, Eq, Debug)]
pub enum IdentifyFault {
    // the file is not one that is only named
    OutOfPlace,
    // the entity is not known, or is not that of the file's name
    Entity,
}

impl IdentifyFault {
    // The published number. No field is named.
    pub fn number(&self) -> u8
        ensures { result ≡ identify_number self.now }
    {
        match *self {
            IdentifyFault::OutOfPlace => 66,
            IdentifyFault::Entity => 65,
        }
    }

    // The Agency's code, if it has one.
    pub fn code(&self) -> Option<&'static [u8]>
        ensures { elim result [ None ↦ identify_code self.now ≡ None | Some text ↦ identify_code self.now ≡ Some text.now ] }
    {
        match *self {
            IdentifyFault::OutOfPlace => None,
            IdentifyFault::Entity => Some(b"R1REPENTCON"),
        }
    }
}

// Why a file is not withdrawn or closed.
#[derive(Clone, Copy, PartialEq, Eq, Debug)]
pub enum PlaceFault {
    // the file's stage does not allow it
    OutOfPlace,
}

impl PlaceFault {
    // The published number. No field is named.
    pub fn number(&self) -> u8
        ensures { result ≡ place_number self.now }
    {
        match *self {
            PlaceFault::OutOfPlace => 66,
        }
    }
}

// Why a file takes no line.
#[derive(Clone, Copy, PartialEq, Eq, Debug)]
pub enum TakeFault {
    // the file is not one that is identified
    OutOfPlace,
    // as many of its lines are judged as may be
    Spent,
}

impl TakeFault {
    // The published number. No field is named.
    pub fn number(&self) -> u8
        ensures { result ≡ take_number self.now }
    {
        match *self {
            TakeFault::OutOfPlace => 66,
            TakeFault::Spent => 9,
        }
    }
}
