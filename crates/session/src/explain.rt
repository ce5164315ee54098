// What is said of a refused line on standard error: its number in the input, the rule, the field and the bytes at fault.
use crate::refusals::Refusal;
use commands::Command;
use std::fmt;
use std::fmt::Write;
use text::span_to;

// How many bytes at fault are shown.
const MOST_SHOWN: usize = 80;

// A refused line of input.
#[derive(Clone, Copy)]
pub(crate) struct Explanation<'a> {
    pub line_number: usize,
    pub line: &'a [u8],
    pub refusal: Refusal,
}

// The text of a command, which the fields and offsets of its refusal count in, and the names of these fields. Of a command out of place it is the whole line.
fn text_and_fields<'a>(line: &'a [u8], refusal: Refusal) -> (&'a [u8], &'static [&'static str]) {
    if let Refusal::OutOfPlace = refusal {
        return (line, &[]);
    }
    match Command::read(line) {
        Ok(Command::Judge(text)) => (text, &LINE_FIELDS),
        Ok(Command::AddContract(text)) => (text, &CONTRACT_FIELDS),
        Ok(Command::AddEntity(text) | Command::NameFile(text) | Command::Identify(text)) => {
            (text, &[])
        }
        _ => (line, &[]),
    }
}

static LINE_FIELDS: [&'static str; 11] = [
    "kind",
    "id",
    "contract",
    "venue",
    "participant",
    "side",
    "action",
    "time",
    "quantity",
    "price",
    "index names",
];

static CONTRACT_FIELDS: [&'static str; 4] = ["id", "type", "option style", "index names"];

// What a rule asks for, by its published number.
fn rule(number: u16) -> &'static str {
    match number {
        1 => "a report line has 1 to 512 bytes, and a line of input at most 514",
        2 => "a report line has exactly 11 fields",
        9 => "at most 1000000 lines are judged in a file",
        11 => "a kind is ORD or TRD",
        12 => "an id has 1 to 52 bytes, and no blank, comma or semicolon",
        13 => "a contract has 0 to 32 bytes, and no blank, comma or semicolon",
        14 => "a venue is 4 capital letters or digits",
        15 => "a participant is 9 capital letters or digits, a dot and 2 capital letters",
        16 => "a side is B or S",
        17 => "an action is N, M, E or C",
        18 => "a time is 1 to 10 digits, at most 4294967295",
        19 =>
            "a quantity is 1 to 8 digits, if need be with a dot and 1 to 5 digits, at most 10000000",
        20 =>
            "a price is blank, or a number of 1 to 7 digits, if need be with a dot and 1 to 5 digits, at most 1000000 either way",
        21 => "index names are 0 to 8 names separated by commas",
        31 => "at a venue other than XBIL the contract has to be listed",
        _ => other_rule(number),
    }
}

fn other_rule(number: u16) -> &'static str {
    match number {
        32 => "each index name has to be one of the contract's",
        33 => "a contract with two or more index names wants at least one of them",
        41 => "a New is of an order or trade that does not stand yet",
        42 => "a Modify is of an open order or trade",
        43 => "a Cancel is of a standing order or trade",
        44 => "an order or trade is cancelled once",
        45 => "an Error is of a standing order or trade",
        46 => "no line is earlier than the last accepted one of its order or trade",
        47 => "no more orders and trades are held than there is room for",
        51 => "a contract is an id, a type, an option style and index names, each of its form",
        52 => "a contract is listed once",
        53 => "an option of this type has a style",
        54 => "no index name stands twice in a contract",
        55 => "at most 63 contracts and 255 index names are listed",
        61 => "an entity's code is 9 capital letters or digits, a dot and 2 capital letters",
        62 => "an entity is added once",
        63 => "at most 32 entities are known",
        64 =>
            "a file's name is 8 digits, 1 to 32 letters or digits, V and a digit, an entity's code, and 1 to 9 digits with .xml, joined by _",
        65 => "a file is identified by the known entity that its name gives",
        _ => "a line of input is R;, K;, F;, I; or P; and a text, or T, W or X alone",
    }
}

// What the rule of a refusal asks for.
fn asked_for(refusal: Refusal) -> &'static str {
    match refusal {
        Refusal::OutOfPlace =>
            "F; goes where no file is in hand, I; where one is only named, P; where one is identified, and X where one is in hand",
        _ => rule(refusal.number()),
    }
}

// Bytes that are no visible letters are shown in hexadecimal.
fn show<W: fmt::Write>(f: &mut fmt::Formatter<W>, bytes: &[u8]) -> fmt::Result {
    for b in bytes.iter().take(MOST_SHOWN) {
        if b.is_ascii_graphic() || *b == b' ' {
            f.write_char(char::from(*b))?;
        } else {
            write!(f, "\\x{:02x}", *b)?;
        }
    }
    if bytes.len() > MOST_SHOWN {
        f.write_str("..")?;
    }
    Ok(())
}

impl<'a> Explanation<'a> {
    // The bytes at fault: the field that is named, or the whole text.
    fn at_fault(&self, text: &'a [u8]) -> &'a [u8] {
        if self.refusal.field() == 0 {
            return text;
        }
        let rest = text.get(self.refusal.offset()..).unwrap_or(&[]);
        &rest[..span_to(rest, b';')]
    }
}

impl<'a> fmt::Display for Explanation<'a> {
    fn fmt<W: fmt::Write>(&self, f: &mut fmt::Formatter<W>) -> fmt::Result {
        let number = self.refusal.number();
        let field = self.refusal.field();
        let (text, names) = text_and_fields(self.line, self.refusal);
        write!(f, "line {}: \"", self.line_number)?;
        show(f, self.at_fault(text))?;
        f.write_str("\"")?;
        if field > 0 {
            write!(f, " in field {field}")?;
            if let Some(name) = names.get(usize::from(field) - 1) {
                write!(f, " ({name})")?;
            }
        }
        write!(f, " breaks rule {number}")?;
        if let Some(code) = self.refusal.code() {
            f.write_str(" (")?;
            show(f, code)?;
            f.write_str(")")?;
        }
        write!(f, ": {}", asked_for(self.refusal))
    }
}
