// The positions that a checker tells, where a position sheet is the first part of its measure.
ghost use Rattle.std.specs.Prelude.{ℕ, ◌<◌, pos, slice_index_or};
ghost use Rattle.calls.specs.Positions.{TellsPosition};

use crate::checker::Checker;
use life::{CONTRACTS, Store};
use measure::{Both, Measure, Sheet};

impl<'id, 's, S: Store, B: Measure> Checker<'id, 's, S, Both<Sheet, B>> {
    /// The position of a contract, in hundred-thousandths: what the open trades of the book bought
    /// less what they sold, modulo 2^64, and the sum itself over a store with room for at most
    /// 65,535 lives.
    pub fn position(&self, contract: u8) -> i64
        ensures { TellsPosition ⟦<Both<Sheet, B> as Measure>⟧ self.now contract result }
    {
        self.register.total().parts().0.position(contract)
    }

    /// The positions of all contracts, by their numbers, 0 for trades outside a market place.
    pub fn positions(&self) -> [i64; CONTRACTS]
        ensures { (n : ℕ) → n < 64 → TellsPosition ⟦<Both<Sheet, B> as Measure>⟧ self.now n (slice_index_or result n (pos 0)) }
    {
        let mut sums = [0; CONTRACTS];
        for (n, sum) in sums.iter_mut().enumerate() {
            *sum = self.position(n as u8);
        }
        sums
    }
}
