// Texts are compared as their bytes are. Written out: clauses speak of the bytes of a text, and those of a derived comparison would speak of its
// array and its length.
ghost use Rattle.std.proofs.Common.{rules};
ghost use Rattle.std.specs.Cmp.{partial_order_from_own_ties};
ghost use Rattle.std.specs.Cmp.Lexicographic.{slice_cmp};
ghost use Rattle.std.specs.Cmp.Rules.{comparing};
ghost use Rattle.std.specs.Ordering.{nat_cmp, on, as_partial_cmp};
ghost use Rattle.std.specs.Str.{bytes_eq};
ghost use Rattle.text.specs.Texts.{text_of};

use crate::bounded::Text;
use std::cmp::Ordering;

impl<const N: usize> PartialEq for Text<N> {
    ghost eq = { on text_of bytes_eq };

    ghost laws = { Prim.search (comparing, rules) };

    // The bytes past the lengths are zero, so all N are compared: a fixed number.
    fn eq(&self, other: &Text<N>) -> bool {
        self.len == other.len && self.bytes == other.bytes
    }
}

impl<const N: usize> Eq for Text<N> {
    ghost laws = { Prim.search (comparing, rules) };
}

impl<const N: usize> Ord for Text<N> {
    ghost cmp = { on text_of (slice_cmp nat_cmp) };

    ghost total = { Prim.search (comparing, rules) };

    ghost matches_partial_cmp = { Prim.search (comparing, rules) };

    ghost matches_eq = { Prim.search (comparing, rules) };

    fn cmp(&self, other: &Text<N>) -> Ordering {
        self.as_slice().cmp(other.as_slice())
    }
}

impl<const N: usize> PartialOrd for Text<N> {
    ghost partial_cmp = { as_partial_cmp (on text_of (slice_cmp nat_cmp)) };

    ghost laws = { partial_order_from_own_ties (Prim.search (comparing, rules)) (Prim.search (comparing, rules)) };

    fn partial_cmp(&self, other: &Text<N>) -> Option<Ordering> {
        Some(self.cmp(other))
    }
}
