// How a key is made, whether two keys are one, and which comes first.
ghost use Rattle.std.specs.Prelude.{◌≡◌, length, ◌==◌};
ghost use Rattle.text.specs.Bytes.{provided};
ghost use Rattle.life.specs.Parts.{key_parts as parts};
ghost use Rattle.life.specs.Keys.{parts_in as made, parts_from as given, same_key as one, key_order as rank_of, StrictOrder as Strict};

use crate::fnv::hash;
use crate::key::Key;
use std::cmp::Ordering;
use text::{Kind, Side, Text};

// How many contract numbers a key may have: those of the 63 contracts, and 0 for none.
pub const CONTRACTS: usize = 64;

impl Key {
    // The one place where a key is made. None where the id has over 52 bytes, the contract number is over 63, the venue
    // has not 4 bytes or the participant not 12.
    pub fn new(
        kind: Kind,
        id: &[u8],
        contract: u8,
        venue: &[u8],
        participant: &[u8],
        side: Side,
    ) -> Option<Key>
        ensures { made result ≡ given kind id.now contract venue.now participant.now side }
    {
        if usize::from(contract) >= CONTRACTS {
            return None;
        }
        let text = Text::new(id)?;
        let venue = venue.try_into().ok()?;
        let participant = participant.try_into().ok()?;
        let word = hash(text.as_slice());
        Some(Key {
            kind,
            id: text,
            contract,
            venue,
            participant,
            side,
            word,
        })
    }

    // Whether two keys are one. Keys with other words have other ids, and most are told apart by that.
    pub fn same(&self, other: &Key) -> bool
        ensures { result ≡ one (parts self.now) (parts other.now) }
    {
        self.word == other.word && self == other
    }

    // Which of two keys comes first. That is a strict and total order.
    pub fn compare(&self, other: &Key) -> Ordering
        ensures is { result ≡ rank_of (parts self.now) (parts other.now) }
        ensures strict { Strict }
    {
        // Written out, the kinds by a test. The bar is the time of a find in the form before, 158 to 167 ns (docs/FIGURES.md): here a find takes 161,
        // with the derived `cmp` 169.
        if self.kind != other.kind {
            return self.kind.cmp(&other.kind);
        }
        self.id
            .cmp(&other.id)
            .then_with(|| self.contract.cmp(&other.contract))
            .then_with(|| self.venue.cmp(&other.venue))
            .then_with(|| self.participant.cmp(&other.participant))
            .then_with(|| self.side.cmp(&other.side))
    }
}
