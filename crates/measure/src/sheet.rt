// The position sheet: for each contract number a sum modulo 2^64, in two's complement.
ghost use Rattle.std.specs.Prelude.{◌≡◌, ℕ, ◌^◌, ◌<◌, length, slice_index};

use life::CONTRACTS;

// One cell for each contract number.
#[derive(Clone, Copy)]
pub struct Sheet {
    pub(crate) cells: [u64; CONTRACTS],
    ghost whole: { length cells ≡ 64 },
    ghost fit: { (n : ℕ) → slice_index cells n < 2 ^ 64 },
}
