// A text of at most N bytes, and of at most 255. The bytes past its length are zero, so that equal texts are equal values.
// An array with its length beside it: a rule of the project wants keys that are plain values in fixed memory, which a lent table holds.
ghost use Rattle.std.specs.Prelude.{◌≡◌, ℕ, ◌-◌, ◌≤◌, length, drop, replicate};

#[derive(Clone, Copy)]
pub struct Text<const N: usize> {
    pub(crate) bytes: [u8; N],
    pub(crate) len: u8,
    ghost ok: { (len ≤ N) × (length bytes ≡ N) × (drop len bytes ≡ replicate (N - len) 0) },
}
