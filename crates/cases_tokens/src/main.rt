// Drives checkers over small chained stores by the tokens of two files at a time, and prints what
// happens.
//
// The tokens are held by two hands, 1 and 2; each line below with a 1 is there with a 2 as well.
// What a call takes is the rest of the line:
//
//     N;SLOTS       a new checker, over a store of so many slots
//     R;CODE        adds an entity
//     K;TEXT        adds a contract
//     F1;NAME       names a file, whose token the hand then holds; the hand has to be free
//     I1;CODE       identifies the file of the hand, which is only named
//     P1;LINE       judges a line in the file of the hand, which is identified
//     X1            withdraws or closes the file of the hand, which is free then
//     L;LINE        looks up the life of a line's key
//     T;NUMBER      tells the position of a contract
//     B;ROOM        writes the lines of all positions into a buffer of so many bytes, each a dot
//                   before, and shows the buffer
//
// Where the hand does not hold what a call takes, there is no call. Any other line is passed over.
// At the end of a checker's lines the files of both hands are ended.
#![tactic(auto)]

mod journal;
mod steps;

use calls::{Checker, IdentifiedFile, NamedFile, NamingError, with_mark};
use chained::Chained;
use commands::free_slots;
use journal::{Event, Journal};
use life::CONTRACTS;
use measure::Sheet;
use output::write_positions;
use std::io;
use std::io::Read;
use steps::{FileStep, Hand, Step, slots_asked};

// The longest buffer for positions.
const MOST_ROOM: usize = 1024;

// What a hand holds: nothing, or the token of a file. It can't be let go.
enum Held<'id> {
    Nothing,
    Named(NamedFile<'id>),
    Identified(IdentifiedFile<'id>),
}

// A checker that is driven, and the journal of what it answers.
#[derive(Drop)]
struct Driver<'id, 's, 't> {
    checker: Checker<'id, 's, Chained<'t>, Sheet>,
    journal: Journal,
}

impl<'id> Driver<'id, '_, '_> {
    fn add_entity(&mut self, code: &[u8]) {
        match self.checker.add_entity(code) {
            Ok(()) => self.journal.tell(Event::EntityAdded),
            Err(fault) => self.journal.tell(Event::NotAdded(fault.number())),
        }
    }

    fn add_contract(&mut self, text: &[u8]) {
        match self.checker.add_contract(text) {
            Ok(number) => self.journal.tell(Event::ContractAdded(number)),
            Err(fault) => self.journal.tell(Event::NotAdded(fault.number())),
        }
    }

    fn name(&mut self, name: &[u8]) -> Held<'id> {
        match self.checker.name_file(name) {
            Ok(file) => {
                self.journal.tell(Event::Named(file.number()));
                Held::Named(file)
            }
            Err(NamingError::Fault(fault)) => {
                self.journal.tell(Event::NotNamed(fault.number()));
                Held::Nothing
            }
            Err(NamingError::NoMemory) => {
                self.journal.tell(Event::NoMemory);
                Held::Nothing
            }
        }
    }

    // The token of the identified file, or the one that a refusal hands back.
    fn identify(&mut self, named: NamedFile<'id>, code: &[u8]) -> Held<'id> {
        match self.checker.identify(named, code) {
            Ok(identified) => {
                self.journal.tell(Event::Identified(identified.number()));
                Held::Identified(identified)
            }
            Err((fault, back)) => {
                self.journal.tell(Event::NotIdentified {
                    file: back.number(),
                    number: fault.number(),
                });
                Held::Named(back)
            }
        }
    }

    fn judge(&mut self, file: &IdentifiedFile<'id>, line: &[u8]) {
        match self.checker.judge(file, line) {
            Ok(()) => self.journal.tell(Event::Accepted),
            Err(fault) => self.journal.tell(Event::Refused {
                number: fault.number(),
                field: fault.field(),
                at: fault.offset(),
            }),
        }
    }

    fn withdraw(&mut self, named: NamedFile<'id>) {
        match self.checker.withdraw(named) {
            Ok(receipt) => self.journal.tell(Event::Withdrawn(receipt)),
            Err(fault) => self.journal.tell(Event::NotEnded(fault.number())),
        }
    }

    fn close(&mut self, identified: IdentifiedFile<'id>) {
        match self.checker.close(identified) {
            Ok(receipt) => self.journal.tell(Event::Closed(receipt)),
            Err(fault) => self.journal.tell(Event::NotEnded(fault.number())),
        }
    }

    // Ends the file whose token is held, if one is.
    fn end(&mut self, held: Held<'id>) {
        match held {
            Held::Nothing => {}
            Held::Named(named) => self.withdraw(named),
            Held::Identified(identified) => self.close(identified),
        }
    }

    // What a hand holds after a step with its file.
    fn with_file(&mut self, held: Held<'id>, step: FileStep) -> Held<'id> {
        match (step, held) {
            (FileStep::Name(name), Held::Nothing) => self.name(name),
            (FileStep::Identify(code), Held::Named(named)) => self.identify(named, code),
            (FileStep::Judge(line), Held::Identified(identified)) => {
                self.judge(&identified, line);
                Held::Identified(identified)
            }
            (FileStep::End, Held::Named(named)) => {
                self.withdraw(named);
                Held::Nothing
            }
            (FileStep::End, Held::Identified(identified)) => {
                self.close(identified);
                Held::Nothing
            }
            (_, held) => {
                self.journal.tell(Event::NoCall);
                held
            }
        }
    }

    fn look_up(&mut self, line: &[u8]) {
        match self.checker.look_up(line) {
            Ok(life) => self.journal.tell(Event::Found(life)),
            Err(fault) => self.journal.tell(Event::NotLookedUp {
                number: fault.number(),
                field: fault.field(),
                at: fault.offset(),
            }),
        }
    }

    fn position(&mut self, contract: u8) {
        let sum = self.checker.total().position(contract);
        self.journal.tell(Event::Position { contract, sum });
    }

    fn report(&mut self, room: usize) {
        let mut sums = [0; CONTRACTS];
        for (n, sum) in sums.iter_mut().enumerate() {
            *sum = self.checker.total().position(n as u8);
        }
        let mut buffer = [b'.'; MOST_ROOM];
        if let Some(front) = buffer.get_mut(..room) {
            let filled = write_positions(front, &sums);
            self.journal.show(filled, front);
        }
    }

    fn drive(&mut self, lines: &[&[u8]]) {
        let mut first = Held::Nothing;
        let mut second = Held::Nothing;
        for line in lines {
            match Step::of(line) {
                Some(Step::OfFile(Hand::First, step)) => first = self.with_file(first, step),
                Some(Step::OfFile(Hand::Second, step)) => second = self.with_file(second, step),
                Some(Step::AddEntity(code)) => self.add_entity(code),
                Some(Step::AddContract(text)) => self.add_contract(text),
                Some(Step::LookUp(report)) => self.look_up(report),
                Some(Step::Position(contract)) => self.position(contract),
                Some(Step::Report(room)) => self.report(room),
                None => {}
            }
        }
        self.end(first);
        self.end(second);
    }
}

// Drives a new checker over a store of so many slots.
fn drive_over(rt: HostRuntime, slots: usize, lines: &[&[u8]]) -> io::Result<()> {
    let mut slots = free_slots(rt.alloc(), slots)?;
    let mut store = Chained::new(&mut slots);
    with_mark(|mark| {
        let mut driver = Driver {
            checker: Checker::new(rt.alloc(), &mut store, mark)?,
            journal: Journal::new(rt),
        };
        driver.drive(lines);
        driver.journal.end()
    })
}

fn main(rt: HostRuntime) -> io::Result<()> {
    let mut input = Vec::new(rt.alloc());
    rt.stdin().read_to_end(&mut input)?;
    let mut lines = Vec::new(rt.alloc());
    for line in input.split_inclusive(|b| *b == b'\n') {
        lines.push(line.strip_suffix(b"\n").unwrap_or(line))?;
    }
    for part in lines.chunk_by(|_, next| slots_asked(next).is_none()) {
        if let [first, steps @ ..] = part
            && let Some(slots) = slots_asked(first)
        {
            drive_over(rt, slots, steps)?;
        }
    }
    Ok(())
}
