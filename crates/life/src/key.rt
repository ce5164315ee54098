// What names a life: kind, id, contract number (0 to 63), venue, participant and side.
ghost use Rattle.std.specs.Prelude.{◌≡◌, ◌<◌};
ghost use Rattle.text.specs.Texts.{text_of};
ghost use Rattle.life.specs.Fnv.{word_of};

use text::{Kind, Side, Text};

// A key keeps the FNV-1a word of its id, which chains and check words start from. Its comparisons leave the word out, which
// follows from the id.
#[derive(Clone, Copy)]
#[derive_where(PartialEq, Eq, PartialOrd, Ord)]
pub struct Key {
    pub kind: Kind,
    pub id: Text<52>,
    pub contract: u8,
    pub venue: [u8; 4],
    pub participant: [u8; 12],
    pub side: Side,
    #[derive_where(skip(EqHashOrd))]
    pub word: u64,
    ghost listed: { contract < 64 },
    ghost kept: { word ≡ word_of (text_of id) },
}
