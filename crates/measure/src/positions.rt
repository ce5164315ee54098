// The position sheet as a measure, and the positions that it tells.
ghost use Rattle.std.specs.Prelude.{◌≡◌, ℕ, ◌<◌, ◌≤◌, List, length};
ghost use Rattle.std.specs.List.{AllByRecursion};
ghost use Rattle.life.specs.declared.key.Key.{Key};
ghost use Rattle.life.specs.declared.life.Life.{Life};
ghost use Rattle.measure.specs.Laws.{sheet_group};
ghost use Rattle.life.specs.Lives.{Lives, plain};
ghost use Rattle.measure.specs.Positions.{Within, traded, true_position};
ghost use Rattle.measure.specs.Sheets.{position_of, wrapped, no_sheet, added, negated, residue, sheet_weight, one_cell};
ghost use Rattle.measure.specs.Totals.{total_in};

use crate::measure::Measure;
use crate::sheet::Sheet;
use life::{CONTRACTS, Key, Life};
use text::{Kind, Side};

impl Sheet {
    /// The position of a contract, in hundred-thousandths; 0 for a number over 63. On a sheet that is
    /// the total of some lives it is their sum modulo 2^64, and of at most 65,535 lives the true sum.
    pub fn position(&self, contract: u8) -> i64
        ensures shown { result ≡ position_of self.now contract }
        ensures wraps { (ps : Lives) → AllByRecursion Within ps → self.now ≡ total_in ⟦<Sheet as Measure>⟧ ps → result ≡ wrapped (true_position contract ps) }
        ensures exact { (ps : Lives) → length ps ≤ 65535 → AllByRecursion Within ps → self.now ≡ total_in ⟦<Sheet as Measure>⟧ ps → result ≡ true_position contract ps }
        ensures kept { (ps : List (Key × Life)) → length ps ≤ 65535 → self.now ≡ total_in ⟦<Sheet as Measure>⟧ (plain ps) → result ≡ true_position contract (plain ps) }
    {
        self.cells
            .get(usize::from(contract))
            .map_or(0, |cell| cell.cast_signed())
    }

    // Adds `value` to the cell `at`.
    pub(crate) fn raise(&mut self, at: u8, value: u64)
        requires { at < 64 }
        ensures { self.new ≡ added self.old (one_cell at value) }
    {
        let cell = &mut self.cells[usize::from(at)];
        *cell = cell.wrapping_add(value);
    }
}

impl Measure for Sheet {
    ghost nil = { no_sheet };

    ghost joined = { added };

    ghost inverse = { negated };

    ghost weight = { sheet_weight };

    ghost laws = { sheet_group };

    fn zero() -> Sheet {
        Sheet {
            cells: [0; CONTRACTS],
        }
    }

    fn join(&mut self, other: &Sheet) {
        // Counted: no clause says what the cells hold after a loop over `iter_mut` with `zip`; with `array::from_fn` it proves, and then the
        // toolchain cannot write the crate's statements.
        for (i, cell) in self.cells.iter_mut().enumerate() {
            *cell = cell.wrapping_add(other.cells[i]);
        }
    }

    fn invert(&mut self) {
        for cell in self.cells.iter_mut() {
            *cell = cell.wrapping_neg();
        }
    }

    fn weigh(key: &Key, life: &Life) -> Sheet {
        let mut sheet = Sheet::zero();
        sheet.put(key, life);
        sheet
    }

    // One cell, not all.
    fn put(&mut self, key: &Key, life: &Life) {
        let value = signed_quantity(key.kind, key.side, life.quantity);
        self.raise(key.contract, value);
    }

    fn take(&mut self, key: &Key, life: &Life) {
        let value = signed_quantity(key.kind, key.side, life.quantity);
        self.raise(key.contract, value.wrapping_neg());
    }
}

// What a life brings to the position of its contract, modulo 2^64.
fn signed_quantity(kind: Kind, side: Side, quantity: u64) -> u64
    ensures { result ≡ residue (traded kind side quantity) }
{
    match (kind, side) {
        (Kind::Order, _) => 0,
        (Kind::Trade, Side::Buy) => quantity,
        (Kind::Trade, Side::Sell) => quantity.wrapping_neg(),
    }
}
