// Drives the contract list, the entity list and the reader of file names with the lines of its
// input, and prints what each answers:
//
//     N         new lists
//     K;TEXT    adds a contract: its number
//     R;CODE    adds an entity
//     F;NAME    reads the name of a file: its entity's code, where that stands, whether it is known
//     P;LINE    the contract number of a report line
//
// A refusal is told with its number, field and offset, and the code if it has one. Any other line
// is a heading, and is printed as it is.
#![tactic(auto)]

use contract::{ContractFault, ContractList};
use filing::{EntityList, read_name};
use line::{ReadFault, field_offset, read_line};
use std::alloc::{AllocError, Global};
use std::io::{Read, Write};
use std::{fmt, io};

// Bytes, printed as characters.
#[derive(Clone, Copy)]
struct Shown<'a>(&'a [u8]);

impl fmt::Display for Shown<'_> {
    fn fmt<W: fmt::Write>(&self, f: &mut fmt::Formatter<W>) -> fmt::Result {
        for b in self.0 {
            let c = char::from(*b);
            write!(f, "{c}")?;
        }
        Ok(())
    }
}

// A line of the input, by its first two bytes.
#[derive(Clone, Copy)]
enum Command<'a> {
    // `N`: new lists
    Again,
    // `K;` and the text of a contract
    Contract(&'a [u8]),
    // `R;` and the code of an entity
    Entity(&'a [u8]),
    // `F;` and the name of a file
    Name(&'a [u8]),
    // `P;` and a report line
    Line(&'a [u8]),
    // any other line is printed as it is
    Heading,
}

fn command_of<'a>(line: &'a [u8]) -> Command<'a> {
    match line {
        [b'N'] => Command::Again,
        [b'K', b';', text @ ..] => Command::Contract(text),
        [b'R', b';', code @ ..] => Command::Entity(code),
        [b'F', b';', name @ ..] => Command::Name(name),
        [b'P', b';', report @ ..] => Command::Line(report),
        _ => Command::Heading,
    }
}

// Why an input line was refused, as it is printed.
#[derive(Clone, Copy)]
struct Refusal<'a> {
    number: u16,
    field: u8,
    offset: usize,
    code: Option<&'a [u8]>,
}

impl From<ReadFault> for Refusal<'_> {
    fn from(fault: ReadFault) -> Self {
        Refusal {
            number: fault.number(),
            field: fault.field(),
            offset: fault.offset(),
            code: None,
        }
    }
}

impl From<ContractFault> for Refusal<'_> {
    fn from(fault: ContractFault) -> Self {
        Refusal {
            number: u16::from(fault.number()),
            field: fault.field(),
            offset: fault.offset(),
            code: fault.code(),
        }
    }
}

// A refusal that names no field and has no code.
fn plain(number: u8) -> Refusal<'static> {
    Refusal {
        number: u16::from(number),
        field: 0,
        offset: 0,
        code: None,
    }
}

impl fmt::Display for Refusal<'_> {
    fn fmt<W: fmt::Write>(&self, f: &mut fmt::Formatter<W>) -> fmt::Result {
        let Refusal {
            number,
            field,
            offset,
            code,
        } = *self;
        write!(f, "refused {number} field {field} offset {offset}")?;
        if let Some(code) = code {
            let code = Shown(code);
            write!(f, " code {code}")?;
        }
        Ok(())
    }
}

#[derive(Drop)]
struct Lists {
    contracts: ContractList,
    entities: EntityList,
}

impl Lists {
    fn new(heap: Global) -> Result<Lists, AllocError> {
        let contracts = ContractList::new(heap)?;
        let entities = EntityList::new(heap)?;
        Ok(Lists {
            contracts,
            entities,
        })
    }

    fn add_contract(&mut self, rt: HostRuntime, text: &[u8]) -> io::Result<()> {
        match self.contracts.add(text) {
            Ok(number) => println!(rt; "contract {number}"),
            Err(fault) => {
                let refusal = Refusal::from(fault);
                println!(rt; "{refusal}")
            }
        }
    }

    fn add_entity(&mut self, rt: HostRuntime, code: &[u8]) -> io::Result<()> {
        match self.entities.add(code) {
            Ok(()) => println!(rt; "entity added"),
            Err(fault) => {
                let refusal = plain(fault.number());
                println!(rt; "{refusal}")
            }
        }
    }

    fn name(&self, rt: HostRuntime, name: &[u8]) -> io::Result<()> {
        match read_name(name) {
            Ok(code) => {
                let text = Shown(code.text);
                let at = code.at;
                if self.entities.knows(code.text) {
                    println!(rt; "entity {text} at {at}, known")
                } else {
                    println!(rt; "entity {text} at {at}, not known")
                }
            }
            Err(fault) => {
                let refusal = plain(fault.number());
                println!(rt; "{refusal}")
            }
        }
    }

    // The contract number of a report line.
    fn number_of(&self, line: &[u8]) -> Result<u8, Refusal<'static>> {
        let report = read_line(line)?;
        self.contracts.number_of(&report).map_err(|fault| Refusal {
            number: u16::from(fault.number()),
            field: fault.field(),
            offset: field_offset(line, fault.field()),
            code: Some(fault.code()),
        })
    }

    fn contract_of(&self, rt: HostRuntime, line: &[u8]) -> io::Result<()> {
        match self.number_of(line) {
            Ok(number) => println!(rt; "contract number {number}"),
            Err(refusal) => println!(rt; "{refusal}"),
        }
    }
}

fn main(rt: HostRuntime) -> io::Result<()> {
    let mut input = Vec::new(rt.alloc());
    rt.stdin().read_to_end(&mut input)?;
    let mut lists = Lists::new(rt.alloc())?;
    for line in input.split_inclusive(|b| *b == b'\n') {
        let line = line.strip_suffix(b"\n").unwrap_or(line);
        match command_of(line) {
            Command::Again => lists = Lists::new(rt.alloc())?,
            Command::Contract(text) => lists.add_contract(rt, text)?,
            Command::Entity(code) => lists.add_entity(rt, code)?,
            Command::Name(name) => lists.name(rt, name)?,
            Command::Line(report) => lists.contract_of(rt, report)?,
            Command::Heading => {
                rt.stdout().write_all(line)?;
                println!(rt; "")?;
            }
        }
    }
    Ok(())
}
