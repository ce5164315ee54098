// Parts of a line, each with the offset of its first byte.
ghost use Rattle.std.specs.Prelude.{◌≡◌};
ghost use Rattle.text.specs.Listings.{listing};
ghost use Rattle.line.specs.Reads.{seen, bytes_of, number_of, signed_of, names_of};

use text::Names;

// A rule of the project: each case holds the bytes that it was read from, of which a blank has none, and their offset, so that whoever holds a
// part can point at its field.
#[derive(Clone, Copy)]
pub enum Part<'a> {
    Blank {
        at: usize,
    },
    Word {
        text: &'a [u8],
        at: usize,
    },
    Number {
        value: u64,
        text: &'a [u8],
        at: usize,
    },
    Signed {
        value: i64,
        text: &'a [u8],
        at: usize,
    },
    Names {
        names: Names<'a>,
        text: &'a [u8],
        at: usize,
    },
}

impl<'a> Part<'a> {
    // Its bytes.
    pub fn bytes(&self) -> &'a [u8]
        ensures { result.now ≡ bytes_of (seen self.now) }
    {
        match *self {
            Part::Blank { .. } => &[],
            Part::Word { text, .. } => text,
            Part::Number { text, .. } => text,
            Part::Signed { text, .. } => text,
            Part::Names { text, .. } => text,
        }
    }

    // The number that it writes, or 0 where it is none. 0, and not an Option: 0 is what its promise says for no number.
    pub fn number(&self) -> u64
        ensures { result ≡ number_of (seen self.now) }
    {
        match *self {
            Part::Number { value, .. } => value,
            _ => 0,
        }
    }

    // The signed number that it writes, or none.
    pub fn signed(&self) -> Option<i64>
        ensures { result ≡ signed_of (seen self.now) }
    {
        match *self {
            Part::Signed { value, .. } => Some(value),
            _ => None,
        }
    }

    // The names that it lists, or none.
    pub fn names(&self) -> Names<'a>
        ensures { listing result ≡ names_of (seen self.now) }
    {
        match *self {
            Part::Names { names, .. } => names,
            _ => Names::none(),
        }
    }
}
