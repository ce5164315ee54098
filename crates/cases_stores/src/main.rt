// Drives both stores with the steps of its input and prints what each of them answers.
//
// A line of the input has words with a blank between them:
//
//     length N              whether a table may have so many places: 0, or the number of a refusal
//     tables SLOTS ENTRIES  new stores over a table of so many slots and one of so many entries
//     put KEY               puts a life, whose time is the number of the step
//     find KEY
//     remove KEY
//     empty
//
// A key is a kind, an id, a contract number and a side, as in `TRD a 1 B`, and then, if they are
// not `XBIL` and `A0000000A.EU`, a venue and a participant. The lines that follow a `tables`, up to
// the next `tables` or `length`, are steps, and are numbered from 1. Any other line is passed over.
#![tactic(auto)]

mod steps;

use chained::{Chained, Slot};
use life::{Key, Life, NoRoom, Store, TableFault};
use ordered::{Entry, Ordered};
use std::io::{Read, Write};
use std::{fmt, io};
use steps::{Step, first_word, is_about_tables, number_of};
use text::{Kind, Side};

// What a store answered.
#[derive(Clone, Copy, Drop)]
enum Said {
    Found(Option<u32>),
    Put(Result<(), NoRoom>),
    Done,
}

impl fmt::Display for Said {
    fn fmt<W: fmt::Write>(&self, f: &mut fmt::Formatter<W>) -> fmt::Result {
        match *self {
            Said::Found(Some(time)) => write!(f, "life of {time}"),
            Said::Found(None) => write!(f, "none"),
            Said::Put(Ok(())) => write!(f, "put"),
            Said::Put(Err(NoRoom)) => write!(f, "full"),
            Said::Done => write!(f, "done"),
        }
    }
}

// The step's answer. A life that is put has this time.
fn answer<S: Store>(store: &mut S, step: &Step, time: u32) -> Said {
    match *step {
        Step::Put(key) => Said::Put(store.put(&key, Life::new(time, 100, None).unwrap())),
        Step::Find(key) => Said::Found(store.find(&key).map(|life| life.time)),
        Step::Remove(key) => {
            store.remove(&key);
            Said::Done
        }
        Step::Empty => {
            store.empty();
            Said::Done
        }
    }
}

fn drive<C: Store, O: Store>(
    rt: HostRuntime,
    chained: &mut C,
    ordered: &mut O,
    lines: &[&[u8]],
) -> io::Result<()> {
    let slots = chained.capacity();
    let entries = ordered.capacity();
    println!(rt; "capacity: {slots}, {entries}")?;
    for (number, line) in (1..).zip(lines) {
        if let Some(step) = Step::of(line) {
            let c = answer(chained, &step, number);
            let o = answer(ordered, &step, number);
            print!(rt; "{number} ")?;
            rt.stdout().write_all(line)?;
            println!(rt; ": {c}, {o}")?;
        }
    }
    Ok(())
}

// New stores over tables of such lengths. What a table holds before does not matter.
fn drive_over(rt: HostRuntime, lengths: &[u8], lines: &[&[u8]]) -> io::Result<()> {
    let (slots, entries) = first_word(lengths);
    let (Some(slots), Some(entries)) = (number_of(slots), number_of(entries)) else {
        return Ok(());
    };
    let key = Key::new(Kind::Order, b"x", 0, b"XBIL", b"A0000000A.EU", Side::Buy).unwrap();
    let life = Life::new(0, 0, None).unwrap();
    let mut slots = vec![in rt.alloc(); Slot {
        head: 7,
        next: 9,
        key,
        life
    }; slots]?;
    let mut entries = vec![in rt.alloc(); Entry { key, life }; entries]?;
    let mut chained = Chained::new(&mut slots);
    let mut ordered = Ordered::new(&mut entries);
    drive(rt, &mut chained, &mut ordered, lines)
}

// 0 for no fault, as it is printed.
fn refusal(checked: Result<(), TableFault>) -> u8 {
    checked.err().map_or(0, |fault| fault.number())
}

fn check_length(rt: HostRuntime, length: &[u8]) -> io::Result<()> {
    let Some(n) = number_of(length) else {
        return Ok(());
    };
    let c = refusal(Chained::check(n));
    let o = refusal(Ordered::check(n));
    println!(rt; "length {n}: {c}, {o}")
}

fn main(rt: HostRuntime) -> io::Result<()> {
    let mut input = Vec::new(rt.alloc());
    rt.stdin().read_to_end(&mut input)?;
    let mut lines = Vec::new(rt.alloc());
    for line in input.split_inclusive(|b| *b == b'\n') {
        lines.push(line.strip_suffix(b"\n").unwrap_or(line))?;
    }
    for part in lines.chunk_by(|_, next| !is_about_tables(next)) {
        if let [first, steps @ ..] = part {
            match first_word(first) {
                (b"length", length) => check_length(rt, length)?,
                (b"tables", lengths) => drive_over(rt, lengths, steps)?,
                _ => {}
            }
        }
    }
    Ok(())
}
