// Where the first piece of a text ends, and what comes after it.
ghost use Rattle.std.specs.Prelude.{◌≡◌, ◌+◌, ◌<◌, ◌≤◌, length, drop};
ghost use Rattle.text.specs.Cuts.{span_to};

// How many bytes stand before the first separator.
pub fn span_to(text: &[u8], separator: u8) -> usize
    ensures value { result ≡ span_to separator text.now }
    ensures within { result ≤ length text.now }
{
    text.iter()
        .position(|b| *b == separator)
        .unwrap_or(text.len())
}

// What is left after the first `n` bytes and the separator that follows them: the named promise beside `span_to`. No crate here calls it, but
// what a public function promises may not go.
pub fn rest_after(text: &[u8], n: usize) -> &[u8]
    ensures rest { result.now ≡ drop (n + 1) text.now }
    ensures less { 0 < length text.now → length result.now < length text.now }
{
    if n < text.len() { &text[n + 1..] } else { &[] }
}
