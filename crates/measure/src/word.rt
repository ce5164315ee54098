// The check word.
ghost use Rattle.std.specs.Prelude.{◌≡◌, ◌++◌};
ghost use Rattle.std.specs.List.{AllByRecursion};
ghost use Rattle.life.specs.Fnv.{word_of};
ghost use Rattle.measure.specs.Words.{no_word, xored, same_word, word_weight, check_word, kind_byte, side_byte, price_word};
ghost use Rattle.measure.specs.Examples.{Stands, published, worked};
ghost use Rattle.measure.specs.Laws.{word_group};

use crate::measure::Measure;
use life::{Key, Life, hash, hash_on};
use text::{Kind, Side};

#[derive(Clone, Copy, PartialEq, Eq)]
pub struct CheckWord {
    pub word: u64,
}

impl CheckWord {
    // The word of some bytes. Published words and those of two lives stand as examples.
    pub fn of(bytes: &[u8]) -> CheckWord
        ensures is { result ≡ check_word (word_of bytes.now) }
        ensures examples { AllByRecursion Stands (published ++ worked) }
    {
        CheckWord { word: hash(bytes) }
    }
}

impl Measure for CheckWord {
    ghost nil = { no_word };

    ghost joined = { xored };

    ghost inverse = { same_word };

    ghost weight = { word_weight };

    ghost laws = { word_group };

    fn zero() -> CheckWord {
        CheckWord { word: 0 }
    }

    fn join(&mut self, other: &CheckWord) {
        self.word ^= other.word;
    }

    fn invert(&mut self) {
        // Each word is its own inverse.
    }

    // Goes on from the word of the id, which the key keeps.
    fn weigh(key: &Key, life: &Life) -> CheckWord {
        let marks = [kind_mark(key.kind), side_mark(key.side), key.contract];
        let quantity = life.quantity.to_le_bytes();
        let price = price_bits(life.price).to_le_bytes();
        let parts: [&[u8]; 6] = [
            &[0x3B],
            &key.participant,
            &key.venue,
            &marks,
            &quantity,
            &price,
        ];
        let word = parts
            .iter()
            .fold(key.word, |word, part| hash_on(word, part));
        CheckWord { word }
    }
}

// Functions, not `From`: neither type of such an `impl` would be of this crate.
fn kind_mark(kind: Kind) -> u8
    ensures { result ≡ kind_byte kind }
{
    match kind {
        Kind::Order => b'O',
        Kind::Trade => b'T',
    }
}

fn side_mark(side: Side) -> u8
    ensures { result ≡ side_byte side }
{
    match side {
        Side::Buy => b'B',
        Side::Sell => b'S',
    }
}

// A price in two's complement, 0 if blank.
fn price_bits(price: Option<i64>) -> u64
    ensures { result ≡ price_word price }
{
    price.map_or(0, |price| price.cast_unsigned())
}
