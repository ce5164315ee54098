// Why a line is refused.
ghost use Rattle.std.specs.Prelude.{◌≡◌, Some, None};
ghost use Rattle.calls.specs.Faults.{judge_number, judge_field, judge_offset, judge_code};
ghost use Rattle.calls.specs.declared.faults.JudgeFault.TheVariants.{File, Line};

use crate::files::TakeFault;
use claims::LineFault;
use register::ActFault;
use text::Kind;

#[derive(Clone, Copy, PartialEq, Eq, Debug)]
pub enum JudgeFault {
    // its file takes no line
    File(TakeFault),
    // it cannot be read, or its contract refuses it
    Line(LineFault),
    // its action on the order or trade is refused; the field at fault starts at the offset
    Act {
        fault: ActFault,
        kind: Kind,
        at: usize,
    },
}

// Written out: a derived `From` would not tell which fault a `?` makes.
impl From<TakeFault> for JudgeFault {
    ghost from_gives = { λ e r. r ≡ File e };

    fn from(fault: TakeFault) -> JudgeFault {
        JudgeFault::File(fault)
    }
}

impl From<LineFault> for JudgeFault {
    ghost from_gives = { λ e r. r ≡ Line e };

    fn from(fault: LineFault) -> JudgeFault {
        JudgeFault::Line(fault)
    }
}

// Its own methods, as each fault has: a trait over faults would say each contract again in its definitions, and each body again in an impl.
impl JudgeFault {
    // The published number.
    pub fn number(&self) -> u16
        ensures { result ≡ judge_number self.now }
    {
        match *self {
            JudgeFault::File(fault) => fault.number() as u16,
            JudgeFault::Line(fault) => fault.number(),
            JudgeFault::Act { fault, .. } => fault.number() as u16,
        }
    }

    // The field, or 0 where none is named: the number that is published for none.
    pub fn field(&self) -> u8
        ensures { result ≡ judge_field self.now }
    {
        match *self {
            JudgeFault::File(_) => 0,
            JudgeFault::Line(fault) => fault.field(),
            JudgeFault::Act { fault, .. } => fault.field(),
        }
    }

    // The offset of the field's first byte, or 0 where none is named.
    pub fn offset(&self) -> usize
        ensures { result ≡ judge_offset self.now }
    {
        match *self {
            JudgeFault::File(_) => 0,
            JudgeFault::Line(fault) => fault.offset(),
            JudgeFault::Act { at, .. } => at,
        }
    }

    // The Agency's code, if it has one.
    pub fn code(&self) -> Option<&'static [u8]>
        ensures { elim result [ None ↦ judge_code self.now ≡ None | Some text ↦ judge_code self.now ≡ Some text.now ] }
    {
        match *self {
            JudgeFault::File(_) => None,
            JudgeFault::Line(fault) => fault.code(),
            JudgeFault::Act { fault, kind, .. } => fault.code(kind),
        }
    }
}
