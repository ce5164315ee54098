// What happened, and the printing of it.
use calls::Receipt;
use life::{Life, State};
use output::OutputFault;
use std::io::Write;
use std::{fmt, io};

// It holds what is printed: numbers, whatever call they come from.
#[derive(Clone, Copy)]
pub enum Event {
    EntityAdded,
    ContractAdded(u8),
    NotAdded(u8),
    // a file by its number
    Named(usize),
    NotNamed(u8),
    NoMemory,
    Identified(usize),
    // the token of the file is handed back
    NotIdentified { file: usize, number: u8 },
    // a line
    Accepted,
    Refused { number: u16, field: u8, at: usize },
    Closed(Receipt),
    Withdrawn(Receipt),
    NotEnded(u8),
    // what stands under a line's key
    Found(Option<Life>),
    NotLookedUp { number: u16, field: u8, at: usize },
    Position { contract: u8, sum: i64 },
    // the hand holds no token that the call takes
    NoCall,
}

fn write_counts<W: fmt::Write>(
    f: &mut fmt::Formatter<W>,
    ended: &str,
    receipt: Receipt,
) -> fmt::Result {
    let Receipt {
        judged,
        accepted,
        refused,
    } = receipt;
    write!(
        f,
        "{ended}: {judged} judged, {accepted} accepted, {refused} refused"
    )
}

fn write_life<W: fmt::Write>(f: &mut fmt::Formatter<W>, life: Life) -> fmt::Result {
    let state = match life.state {
        State::Open => "open",
        State::Cancelled => "cancelled",
    };
    let time = life.time;
    let quantity = life.quantity;
    write!(f, "{state} life: time {time}, quantity {quantity}, ")?;
    match life.price {
        Some(price) => write!(f, "price {price}"),
        None => write!(f, "no price"),
    }
}

impl fmt::Display for Event {
    fn fmt<W: fmt::Write>(&self, f: &mut fmt::Formatter<W>) -> fmt::Result {
        match *self {
            Event::EntityAdded => write!(f, "entity added"),
            Event::ContractAdded(number) => write!(f, "contract {number} added"),
            Event::NotAdded(number) => write!(f, "not added: refused {number}"),
            Event::Named(file) => write!(f, "file {file} named"),
            Event::NotNamed(number) => write!(f, "no file named: refused {number}"),
            Event::NoMemory => write!(f, "no memory"),
            Event::Identified(file) => write!(f, "file {file} identified"),
            Event::NotIdentified { file, number } => {
                write!(f, "file {file} still only named: refused {number}")
            }
            Event::Accepted => write!(f, "line accepted"),
            Event::Refused { number, field, at } => {
                write!(f, "line refused {number} field {field} offset {at}")
            }
            Event::Closed(receipt) => write_counts(f, "closed", receipt),
            Event::Withdrawn(receipt) => write_counts(f, "withdrawn", receipt),
            Event::NotEnded(number) => write!(f, "not ended: refused {number}"),
            Event::Found(Some(life)) => write_life(f, life),
            Event::Found(None) => write!(f, "no life"),
            Event::NotLookedUp { number, field, at } => {
                write!(
                    f,
                    "not looked up: refused {number} field {field} offset {at}"
                )
            }
            Event::Position { contract, sum } => {
                write!(f, "position of contract {contract}: {sum}")
            }
            Event::NoCall => write!(f, "no call"),
        }
    }
}

// Prints events until a first line cannot be written. That is told at the end only: a `?` on the way would let a token go.
#[derive(Drop)]
pub struct Journal {
    rt: HostRuntime,
    written: io::Result<()>,
}

impl Journal {
    pub(crate) fn new(rt: HostRuntime) -> Journal {
        Journal {
            rt,
            written: Ok(()),
        }
    }

    pub(crate) fn tell(&mut self, event: Event) {
        if self.written.is_ok() {
            let rt = self.rt;
            self.written = println!(rt; "{event}");
        }
    }

    // A buffer, after answer lines were written to its front or refused.
    pub(crate) fn show(&mut self, filled: Result<usize, OutputFault>, buffer: &[u8]) {
        if self.written.is_ok() {
            self.written = show_in(self.rt, filled, buffer);
        }
    }

    pub(crate) fn end(self) -> io::Result<()> {
        self.written
    }
}

fn show_in(rt: HostRuntime, filled: Result<usize, OutputFault>, buffer: &[u8]) -> io::Result<()> {
    match filled {
        Ok(n) => println!(rt; "{n} bytes written:")?,
        Err(fault) => {
            let number = fault.number();
            println!(rt; "nothing written: refused {number}:")?;
        }
    }
    rt.stdout().write_all(buffer)?;
    println!(rt; "")
}
