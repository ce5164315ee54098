// Names of files.
ghost use Rattle.std.specs.Prelude.{◌≡◌, ◌+◌, ◌&&◌, length, take, drop, IfOk};
ghost use Rattle.filing.specs.Codes.{code_part, naming_in, code_there};
ghost use Rattle.filing.specs.Faults.{name_number as number_of};
ghost use Rattle.filing.specs.Names.{a_date, a_schema, a_version, a_last, naming};

use text::{Digits, LettersOrDigits, all_of, is_code};

// Why a file is not named.
#[derive(Clone, Copy, PartialEq, Eq, Debug)]
pub enum NameFault {
    // the name lacks its form
    Form,
}

impl NameFault {
    // The published number. No field is named.
    pub fn number(&self) -> u8
        ensures { result ≡ number_of self.now }
    {
        match *self {
            NameFault::Form => 64,
        }
    }
}

// The code of the reporting entity, as a part of a file's name with its offset there.
#[derive(Clone, Copy)]
pub struct EntityCode<'a> {
    pub text: &'a [u8],
    pub at: usize,
}

// A length and a class, as in the two after it and in ids: a function of both would take a class and two numbers, and say no more.
// Eight digits.
fn is_date(text: &[u8]) -> bool
    ensures { result ≡ a_date text.now }
{
    text.len() == 8 && all_of::<Digits>(text)
}

// One to 32 letters or digits.
fn is_schema(text: &[u8]) -> bool
    ensures { result ≡ a_schema text.now }
{
    1 <= text.len() && text.len() <= 32 && all_of::<LettersOrDigits>(text)
}

// `V` and a digit.
fn is_version(text: &[u8]) -> bool
    ensures { result ≡ a_version text.now }
{
    matches!(text, [b'V', b'0'..=b'9'])
}

// One to nine digits and `.xml`.
fn is_last(text: &[u8]) -> bool
    ensures { result ≡ a_last text.now }
{
    let Some(digits) = text.strip_suffix(b".xml") else {
        return false;
    };
    1 <= digits.len() && digits.len() <= 9 && all_of::<Digits>(digits)
}

// Whether the parts around the code have their forms.
fn surround_code(date: &[u8], schema: &[u8], version: &[u8], last: &[u8]) -> bool
    ensures { result ≡ (a_date date.now && (a_schema schema.now && (a_version version.now && a_last last.now))) }
{
    is_date(date) && is_schema(schema) && is_version(version) && is_last(last)
}

// The code in a name of five parts joined by `_`: date, schema, version, code and number.
fn code_in<'a>(name: &'a [u8]) -> Option<EntityCode<'a>>
    ensures { code_part result ≡ code_there name.now }
{
    let mut parts = name.split(|b| *b == b'_');
    let date = parts.next()?;
    let schema = parts.next()?;
    let version = parts.next()?;
    let code = parts.next()?;
    let last = parts.next()?;
    if parts.next().is_some() {
        return None;
    }
    if !surround_code(date, schema, version, last) {
        return None;
    }
    if !is_code(code) {
        return None;
    }
    Some(EntityCode {
        text: code,
        at: date.len() + schema.len() + version.len() + 3,
    })
}

// The entity code of a file's name.
pub fn read_name<'a>(name: &'a [u8]) -> Result<EntityCode<'a>, NameFault>
    ensures told { naming_in result ≡ naming name.now }
    ensures part { IfOk result (λ code. code.text.now ≡ take (length code.text.now) (drop code.at name.now)) }
{
    code_in(name).ok_or(NameFault::Form)
}
