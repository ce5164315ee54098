// Hands out the fields of a line in order, and copies nothing.
// A reading that fails leaves the reader at the field's first byte.
ghost use Rattle.std.specs.Prelude.{◌≡◌, ℕ, ◌+◌, List, drop, Option};
ghost use Rattle.text.specs.Forms.{kind_form, id_form, venue_form, code_form, side_form, action_form, time_form, quantity_form, price_form, names_form};
ghost use Rattle.line.specs.declared.faults.ReadFault.TheVariants.{Form};
ghost use Rattle.line.specs.Reads.{front, pace, next_field, formed, read, Moved, seen, seen_in, as_read, as_word, as_number, as_price, as_names};

use crate::faults::ReadFault;
use crate::parts::Part;
use crate::place::{Place, Rewind};
use text::{
    Action, Kind, Names, Side, is_code, is_id, is_venue, price_of, quantity_of, span_to, time_of,
};

// The bytes up to the next separator; the place is past it then.
fn take_field<'a>(line: &'a [u8], place: &mut Place) -> &'a [u8]
    ensures part { result.now ≡ front (drop place.old.at line.now) }
    ensures at { place.new.at ≡ place.old.at + pace (drop place.old.at line.now) }
    ensures field { place.new.field ≡ next_field place.old.field }
{
    let rest = &line[place.at.min(line.len())..];
    let n = span_to(rest, b';');
    place.at += n;
    if n < rest.len() {
        place.at += 1;
    }
    place.field = place.field.saturating_add(1);
    &rest[0..n]
}

// A word, or a blank where there are no bytes.
fn word<'a>(text: &'a [u8], at: usize) -> Part<'a>
    ensures { seen result ≡ as_word text.now at text.now }
{
    if text.is_empty() {
        Part::Blank { at }
    } else {
        Part::Word { text, at }
    }
}

// A signed number, or a blank where there is none.
fn signed<'a>(price: Option<i64>, text: &'a [u8], at: usize) -> Part<'a>
    ensures { seen result ≡ as_price text.now at price }
{
    match price {
        Some(value) => Part::Signed { value, text, at },
        None => Part::Blank { at },
    }
}

// The field at a place lacks its form.
fn lacks_form(start: Place) -> ReadFault
    ensures { result ≡ Form (next_field start.field) start.at }
{
    ReadFault::Form {
        field: start.field.saturating_add(1),
        at: start.at,
    }
}

// A value that a field writes by its form. Each type's function asks its parser, or is it.
pub trait FieldForm {
    ghost form: { List ℕ → Option Self };

    fn said_by(text: &[u8]) -> Option<Self>
        ensures { result ≡ form text.now };
}

impl FieldForm for Kind {
    ghost form = { kind_form };

    fn said_by(text: &[u8]) -> Option<Kind> {
        Kind::of(text)
    }
}

impl FieldForm for Side {
    ghost form = { side_form };

    fn said_by(text: &[u8]) -> Option<Side> {
        Side::of(text)
    }
}

impl FieldForm for Action {
    ghost form = { action_form };

    fn said_by(text: &[u8]) -> Option<Action> {
        Action::of(text)
    }
}

#[derive(Drop)]
pub struct Reader<'a> {
    line: &'a [u8],
    place: Place,
}

impl<'a> Reader<'a> {
    // A reader at the start of a line.
    pub fn new(line: &'a [u8]) -> Reader<'a>
        ensures line { result.line.now ≡ line.now }
        ensures place { result.place ≡ record { at = 0; field = 0 } }
    {
        Reader {
            line,
            place: Place { at: 0, field: 0 },
        }
    }

    // The field at the place, by what `said` answers of its bytes and their offset: where it answers nothing, the field
    // lacks its form.
    fn field<T, F: FnOnce(&'a [u8], usize) -> Option<T>>(&mut self, said: F) -> Result<T, ReadFault>
        requires { F.IsAlwaysCallable said }
        ensures told { (text : _) × (answer : Option T)
            × (text.now ≡ front (drop self.old.place.at self.old.line.now))
            × F.post said text self.old.place.at answer
            × (result ≡ formed (λ v. v) answer (next_field self.old.place.field) self.old.place.at) }
        ensures moved { Moved self.old self.new result }
    {
        let start = self.place;
        let mut guard = Rewind {
            place: &mut self.place,
            back: Some(start),
        };
        let text = take_field(self.line, guard.place);
        let value = said(text, start.at).ok_or(lacks_form(start))?;
        guard.back = None;
        Ok(value)
    }

    // The value that a field writes by its form.
    pub fn value<F: FieldForm>(&mut self) -> Result<F, ReadFault>
        ensures told { result ≡ read as_read F.FieldForm.form self.old.place self.old.line.now }
        ensures moved { Moved self.old self.new result }
    {
        self.field(|text, _| F::said_by(text))
    }

    // Written out for `id`, `venue` and `code`, which differ in their test, and for `time` and `quantity`, which differ in their parser: a
    // method that takes the test or the parser needs a contract on a closure around it, and is longer than what it saves.
    // From `least` to `most` id bytes.
    pub fn id(&mut self, least: usize, most: usize) -> Result<Part<'a>, ReadFault>
        ensures told { seen_in result ≡ read as_word (id_form least most) self.old.place self.old.line.now }
        ensures moved { Moved self.old self.new result }
    {
        self.field(|text, at| is_id(text, least, most).then(|| word(text, at)))
    }

    // Four capital letters or digits.
    pub fn venue(&mut self) -> Result<Part<'a>, ReadFault>
        ensures told { seen_in result ≡ read as_word venue_form self.old.place self.old.line.now }
        ensures moved { Moved self.old self.new result }
    {
        self.field(|text, at| is_venue(text).then(|| word(text, at)))
    }

    // An ACER code.
    pub fn code(&mut self) -> Result<Part<'a>, ReadFault>
        ensures told { seen_in result ≡ read as_word code_form self.old.place self.old.line.now }
        ensures moved { Moved self.old self.new result }
    {
        self.field(|text, at| is_code(text).then(|| word(text, at)))
    }

    // A time in seconds.
    pub fn time(&mut self) -> Result<Part<'a>, ReadFault>
        ensures told { seen_in result ≡ read as_number time_form self.old.place self.old.line.now }
        ensures moved { Moved self.old self.new result }
    {
        self.field(|text, at| {
            let value = time_of(text)? as u64;
            Some(Part::Number { value, text, at })
        })
    }

    // A quantity in hundred-thousandths.
    pub fn quantity(&mut self) -> Result<Part<'a>, ReadFault>
        ensures told { seen_in result ≡ read as_number quantity_form self.old.place self.old.line.now }
        ensures moved { Moved self.old self.new result }
    {
        self.field(|text, at| {
            let value = quantity_of(text)?;
            Some(Part::Number { value, text, at })
        })
    }

    // A price in hundred-thousandths, or a blank.
    pub fn price(&mut self) -> Result<Part<'a>, ReadFault>
        ensures told { seen_in result ≡ read as_price price_form self.old.place self.old.line.now }
        ensures moved { Moved self.old self.new result }
    {
        self.field(|text, at| Some(signed(price_of(text)?, text, at)))
    }

    // A list of names.
    pub fn names(&mut self) -> Result<Part<'a>, ReadFault>
        ensures told { seen_in result ≡ read as_names names_form self.old.place self.old.line.now }
        ensures moved { Moved self.old self.new result }
    {
        self.field(|text, at| {
            let names = Names::of(text)?;
            Some(Part::Names { names, text, at })
        })
    }
}
