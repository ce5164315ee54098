// What a bounded text can do.
ghost use Rattle.std.specs.Prelude.{◌≡◌, ◌≤◌, ◌&&◌, [], length, nat_le};
ghost use Rattle.std.specs.Str.{bytes_eq};
ghost use Rattle.text.specs.Bytes.{provided, among};
ghost use Rattle.text.specs.Texts.{text_of, text_in, texts_of, order};

use crate::bounded::Text;
use std::cmp::Ordering;

// The most bytes that any text holds.
const LONGEST: usize = 255;

impl<const N: usize> Text<N> {
    // The text of no bytes.
    pub fn empty() -> Text<N>
        ensures { text_of result ≡ [] }
    {
        Text {
            bytes: [0; N],
            len: 0,
        }
    }

    // The bytes as a text, if they are few enough.
    pub fn new(s: &[u8]) -> Option<Text<N>>
        ensures { text_in result ≡ provided (nat_le (length s.now) N && nat_le (length s.now) 255) s.now }
    {
        if s.len() > N || s.len() > LONGEST {
            return None;
        }
        let mut bytes = [0; N];
        bytes[..s.len()].copy_from_slice(s);
        Some(Text {
            bytes,
            len: s.len() as u8,
        })
    }

    // Its bytes.
    pub fn as_slice(&self) -> &[u8]
        ensures { result.now ≡ text_of self.now }
    {
        &self.bytes[..self.len as usize]
    }

    // Whether two texts are the same: the named promise beside `==`. No crate here calls it, but what a public function promises may not go.
    pub fn same(&self, other: &Text<N>) -> bool
        ensures { result ≡ bytes_eq (text_of self.now) (text_of other.now) }
    {
        self == other
    }

    // Which of two texts comes first: the named promise beside `cmp`. No crate here calls it, but what a public function promises may not go.
    #[tactic(auto, using(crate::proofs::Compared::lex_order))]
    pub fn compare(&self, other: &Text<N>) -> Ordering
        ensures { result ≡ order (text_of self.now) (text_of other.now) }
    {
        self.cmp(other)
    }
}

impl<const N: usize> Default for Text<N> {
    ghost is_default = { λ t. text_of t ≡ [] };

    fn default() -> Text<N> {
        Text::empty()
    }
}

// Whether two texts are the same: the named promise beside the `==` of slices. No crate here calls it, but what a public function promises may
// not go.
pub fn same_bytes(a: &[u8], b: &[u8]) -> bool
    ensures { result ≡ bytes_eq a.now b.now }
{
    a == b
}

// Whether a text stands in a list.
pub fn is_among<const N: usize>(texts: &[Text<N>], text: &[u8]) -> bool
    ensures { result ≡ among (texts_of texts.now) text.now }
{
    texts.iter().any(
        |t| -> bool
            ensures { result ≡ bytes_eq text.entry.now (text_of t.now) }
        { text == t.as_slice() },
    )
}

// Which of two texts comes first: by the first byte from the left that differs, and a text before what it begins. The named promise beside
// the `cmp` of slices. No crate here calls it, but what a public function promises may not go.
#[tactic(auto, using(crate::proofs::Compared::lex_order))]
pub fn compare_bytes(a: &[u8], b: &[u8]) -> Ordering
    ensures { result ≡ order a.now b.now }
{
    a.cmp(b)
}
