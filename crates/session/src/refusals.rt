// Why a line of input is refused.
ghost use Rattle.std.specs.Prelude.{◌≡◌, Some, None};
ghost use Rattle.output.specs.Lines.{line_text};
ghost use Rattle.session.specs.Refusals.{refusal_number, refusal_field, refusal_offset, refusal_code, refusal_text};
ghost use Rattle.session.specs.declared.refusals.Refusal.TheVariants.{Unread, Refused};

use calls::Fault;
use commands::CommandFault;
use output::AnswerLine;

#[derive(Clone, Copy, PartialEq, Eq, Debug)]
pub enum Refusal {
    // it is no command
    Unread(CommandFault),
    // its command does not go with the file that is open, or wants one where none is
    OutOfPlace,
    // the checker refuses its call
    Refused(Fault),
}

// Written out: a derived `From` would not tell which refusal a `?` makes.
impl From<CommandFault> for Refusal {
    ghost from_gives = { λ e r. r ≡ Unread e };

    fn from(fault: CommandFault) -> Refusal {
        Refusal::Unread(fault)
    }
}

impl From<Fault> for Refusal {
    ghost from_gives = { λ e r. r ≡ Refused e };

    fn from(fault: Fault) -> Refusal {
        Refusal::Refused(fault)
    }
}

impl Refusal {
    // The published number.
    pub fn number(&self) -> u16
        ensures { result ≡ refusal_number self.now }
    {
        match *self {
            Refusal::Unread(fault) => u16::from(fault.number()),
            Refusal::OutOfPlace => 66,
            Refusal::Refused(fault) => fault.number(),
        }
    }

    // The field of the command's text, or 0 where none is named: the number that is published for none.
    pub fn field(&self) -> u8
        ensures { result ≡ refusal_field self.now }
    {
        match *self {
            Refusal::Refused(fault) => fault.field(),
            _ => 0,
        }
    }

    // The offset of the field's first byte in the command's text, or 0 where none is named.
    pub fn offset(&self) -> usize
        ensures { result ≡ refusal_offset self.now }
    {
        match *self {
            Refusal::Refused(fault) => fault.offset(),
            _ => 0,
        }
    }

    // The Agency's code, if it has one.
    pub fn code(&self) -> Option<&'static [u8]>
        ensures { elim result [ None ↦ refusal_code self.now ≡ None | Some text ↦ refusal_code self.now ≡ Some text.now ] }
    {
        match *self {
            Refusal::Refused(fault) => fault.code(),
            _ => None,
        }
    }

    // The line that answers it.
    pub fn line(&self) -> AnswerLine
        ensures { line_text result ≡ refusal_text self.now }
    {
        AnswerLine::Refused {
            number: self.number(),
            field: self.field(),
            code: self.code(),
        }
    }
}
