// Why an action of a key is refused.
ghost use Rattle.std.specs.Prelude.{◌≡◌, Some, None};
ghost use Rattle.register.specs.Faults.{act_number, act_field, act_code};
ghost use Rattle.register.specs.declared.faults.ActFault.TheVariants.{Life};

use life::LifeFault;
use text::Kind;

#[derive(Clone, Copy, PartialEq, Eq, Debug)]
pub enum ActFault {
    // a rule of lives is against it
    Life(LifeFault),
    // a New where as many lives are held as there may be
    Full,
}

// Written out: a derived `From` would not tell which fault a `?` makes.
impl From<LifeFault> for ActFault {
    ghost from_gives = { λ e r. r ≡ Life e };

    fn from(fault: LifeFault) -> ActFault {
        ActFault::Life(fault)
    }
}

// Its own methods, as each fault has: a trait over faults would say each contract again in its definitions, and each body again in an impl.
impl ActFault {
    // The published number.
    pub fn number(&self) -> u8
        ensures { result ≡ act_number self.now }
    {
        match *self {
            ActFault::Life(e) => e.number(),
            ActFault::Full => 47,
        }
    }

    // The field of the line, or 0 where none is named: the number that is published for none.
    pub fn field(&self) -> u8
        ensures { result ≡ act_field self.now }
    {
        match *self {
            ActFault::Life(e) => e.field(),
            ActFault::Full => 0,
        }
    }

    // The Agency's code for an order or a trade, if it has one.
    pub fn code(&self, kind: Kind) -> Option<&'static [u8]>
        ensures { elim result [ None ↦ act_code kind self.now ≡ None | Some text ↦ act_code kind self.now ≡ Some text.now ] }
    {
        match *self {
            ActFault::Life(e) => e.code(kind),
            ActFault::Full => None,
        }
    }
}
