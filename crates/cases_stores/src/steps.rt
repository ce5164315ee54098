// A line of the input as a step.
use life::Key;
use text::{Kind, Side, rest_after, span_to, time_of};

// What is asked of both stores.
#[derive(Clone, Copy)]
pub(crate) enum Step {
    Put(Key),
    Find(Key),
    Remove(Key),
    Empty,
}

// A number of at most ten digits.
pub(crate) fn number_of(word: &[u8]) -> Option<usize> {
    time_of(word).map(|n| n as usize)
}

// The first word of a line, and what follows it.
pub(crate) fn first_word(line: &[u8]) -> (&[u8], &[u8]) {
    let end = span_to(line, b' ');
    (&line[..end], rest_after(line, end))
}

// Whether a line is no step.
pub(crate) fn is_about_tables(line: &[u8]) -> bool {
    let (word, _) = first_word(line);
    matches!(word, b"length" | b"tables")
}

fn key_of(text: &[u8]) -> Option<Key> {
    let mut words = text.split(|b| *b == b' ');
    let kind = Kind::of(words.next()?)?;
    let id = words.next()?;
    let contract = u8::try_from(time_of(words.next()?)?).ok()?;
    let side = Side::of(words.next()?)?;
    let venue = words.next().unwrap_or(b"XBIL");
    let participant = words.next().unwrap_or(b"A0000000A.EU");
    Key::new(kind, id, contract, venue, participant, side)
}

impl Step {
    pub(crate) fn of(line: &[u8]) -> Option<Step> {
        let (act, key) = first_word(line);
        match act {
            b"put" => key_of(key).map(|key| Step::Put(key)),
            b"find" => key_of(key).map(|key| Step::Find(key)),
            b"remove" => key_of(key).map(|key| Step::Remove(key)),
            b"empty" => Some(Step::Empty),
            _ => None,
        }
    }
}
