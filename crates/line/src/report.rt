// A report line, read.
ghost use Rattle.std.specs.Prelude.{◌≡◌, length};
ghost use Rattle.text.specs.Rows.{fields, settled};
ghost use Rattle.line.specs.Lines.{field_rows, report, reading};
ghost use Rattle.line.specs.Reports.{said_in};

use crate::faults::ReadFault;
use crate::offsets::field_count;
use crate::reader::Reader;
use text::{Action, Kind, Names, Side};

// What the fields of a line say. Texts are parts of the line; quantity and price are whole hundred-thousandths.
#[derive(Clone, Copy)]
pub struct Report<'a> {
    pub kind: Kind,
    pub id: &'a [u8],
    pub contract: &'a [u8],
    pub venue: &'a [u8],
    pub participant: &'a [u8],
    pub side: Side,
    pub action: Action,
    pub time: u32,
    pub quantity: u64,
    pub price: Option<i64>,
    pub names: Names<'a>,
}

// The most bytes of a line.
pub const LONGEST_LINE: usize = 512;

// How many fields a line has.
const FIELDS: usize = 11;

// The fields from the left: the first that lacks its form refuses the line.
fn read_fields<'a>(line: &'a [u8]) -> Result<Report<'a>, ReadFault>
    requires { length (fields line.now) ≡ 11 }
    ensures { said_in result ≡ settled field_rows line.now (report (fields line.now)) }
{
    let mut reader = Reader::new(line);
    let kind = reader.value::<Kind>()?;
    let id = reader.id(1, 52)?;
    let contract = reader.id(0, 32)?;
    let venue = reader.venue()?;
    let participant = reader.code()?;
    let side = reader.value::<Side>()?;
    let action = reader.value::<Action>()?;
    let time = reader.time()?;
    let quantity = reader.quantity()?;
    let price = reader.price()?;
    let names = reader.names()?;
    Ok(Report {
        kind,
        id: id.bytes(),
        contract: contract.bytes(),
        venue: venue.bytes(),
        participant: participant.bytes(),
        side,
        action,
        time: time.number() as u32,
        quantity: quantity.number(),
        price: price.signed(),
        names: names.names(),
    })
}

// What a line says, or the first rule that it breaks.
pub fn read_line<'a>(line: &'a [u8]) -> Result<Report<'a>, ReadFault>
    ensures { said_in result ≡ reading line.now }
{
    if line.is_empty() || line.len() > LONGEST_LINE {
        return Err(ReadFault::Length);
    }
    if field_count(line) != FIELDS {
        return Err(ReadFault::Fields);
    }
    read_fields(line)
}
