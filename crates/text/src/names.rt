// Lists of names: 0 to 8 of them, separated by commas, each formed like an id.
ghost use Rattle.std.specs.Prelude.{◌≡◌, ◌+◌, [], length, take, drop};
ghost use Rattle.std.specs.Bool.{OnTrue};
ghost use Rattle.std.specs.Iterator.{YieldsFirstRef, item_count};
ghost use Rattle.text.specs.Bytes.{every};
ghost use Rattle.text.specs.Forms.{a_name, few_names, names_form};
ghost use Rattle.text.specs.Listings.{listing, listing_in, first_name, first_in};

use crate::codes::is_id;
use crate::cuts::span_to;

/// The names in a part of a line: none, or those that its commas separate. Any text lists names;
/// `of` takes those of the form alone.
#[derive(Clone, Copy)]
pub struct Names<'a> {
    /// The text that lists them, with a comma between two, or none where there are no names.
    pub listed: Option<&'a [u8]>,
}

const MOST_NAMES: usize = 8;

const LONGEST_NAME: usize = 32;

fn is_name(text: &[u8]) -> bool
    ensures { result ≡ a_name text.now }
{
    is_id(text, 1, LONGEST_NAME)
}

// Whether the first eight names, or all where they are fewer, are formed like ids; then they are
// gone past. A loop, and not `all` behind a `take`: no clause says what is left of an iterator that
// is lent to a chain.
fn are_formed(names: &mut Names) -> bool
    ensures value { result ≡ every a_name (take 8 (listing names.old)) }
    ensures past { OnTrue result (listing names.new ≡ drop 8 (listing names.old)) }
{
    for _ in 0..MOST_NAMES {
        let Some(name) = names.next() else {
            return true;
        };
        if !is_name(name) {
            return false;
        }
    }
    true
}

// At most eight names, each formed like an id. Each name is looked at once.
fn are_names(mut names: Names) -> bool
    ensures { result ≡ few_names 8 (listing names.entry) }
{
    are_formed(&mut names) && names.next().is_none()
}

impl<'a> Names<'a> {
    // No names.
    pub fn none() -> Names<'a>
        ensures { listing result ≡ [] }
    {
        Names { listed: None }
    }

    // The names that a text lists, if it has that form.
    pub fn of(text: &'a [u8]) -> Option<Names<'a>>
        ensures { listing_in result ≡ names_form text.now }
    {
        if text.is_empty() {
            return Some(Names::none());
        }
        let names = Names { listed: Some(text) };
        are_names(names).then_some(names)
    }

    // The first name.
    pub fn first(&self) -> Option<&'a [u8]>
        ensures { first_in result ≡ first_name (listing self.now) }
    {
        self.listed.map(|text| &text[..span_to(text, b',')])
    }

    // The names after the first.
    pub fn rest(&self) -> Names<'a>
        ensures { listing result ≡ drop 1 (listing self.now) }
    {
        Names {
            listed: self
                .listed
                .and_then(|text| text.get(span_to(text, b',') + 1..)),
        }
    }
}

impl<'a> Iterator for Names<'a> {
    type Item = &'a [u8];

    ghost next_gives = { YieldsFirstRef listing };

    ghost remaining = { item_count listing };

    fn next(&mut self) -> Option<&'a [u8]> {
        let text = self.listed?;
        let n = span_to(text, b',');
        self.listed = text.get(n + 1..);
        Some(&text[..n])
    }
}
