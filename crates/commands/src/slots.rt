// The slots of a program's store.
ghost use Rattle.std.specs.Prelude.{◌≡◌, replicate, IfOk};
ghost use Rattle.commands.specs.Slots.{slots_form, free_slot};

use chained::{Chained, Slot};
use life::{Key, Life};
use std::alloc::{AllocError, Global};
use std::fmt;
use text::{Kind, Side, time_of};

// The slots of a store, where no option says another number.
pub const SLOTS: usize = 256;

// Why a word is no number of slots.
#[derive(Clone, Copy, PartialEq, Eq, Debug)]
pub enum SlotsFault {
    // it is not `--slots=` and a number
    Form,
    // a store does not allow so many: the published number is 72
    Length,
}

impl fmt::Display for SlotsFault {
    fn fmt<W: fmt::Write>(&self, f: &mut fmt::Formatter<W>) -> fmt::Result {
        match *self {
            SlotsFault::Form => write!(f, "no option, or not a number of 1 to 10 digits"),
            SlotsFault::Length => write!(f, "72: a store has 1 to 65536 slots"),
        }
    }
}

// The number of slots that a word asks for: `--slots=` and a number, which has the form of a time.
pub fn slots_of(word: &str) -> Result<usize, SlotsFault>
    ensures { result ≡ slots_form word.now }
{
    let digits = word
        .as_bytes()
        .strip_prefix(b"--slots=")
        .ok_or(SlotsFault::Form)?;
    let n = time_of(digits).ok_or(SlotsFault::Form)? as usize;
    if Chained::check(n).is_err() {
        return Err(SlotsFault::Length);
    }
    Ok(n)
}

// So many free slots: each has a blank pair, and nothing in its chain.
pub fn free_slots(heap: Global, n: usize) -> Result<Vec<Slot>, AllocError>
    ensures { IfOk result (λ slots. slots.items ≡ replicate n free_slot) }
{
    let key = Key::new(Kind::Order, b"", 0, &[0; 4], &[0; 12], Side::Buy).unwrap();
    let life = Life::new(0, 0, None).unwrap();
    vec![in heap; Slot {
        head: 0,
        next: 0,
        key,
        life
    }; n]
}
