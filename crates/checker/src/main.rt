// The checker of report lines: reads commands from standard input, and answers each by a line.
#![tactic(auto)]

mod options;

use calls::{Checker, with_mark};
use chained::Chained;
use commands::free_slots;
use options::Options;
use session::answer_all;
use std::io::Read;
use std::process::ExitCode;
use std::{env, io};

fn check(rt: HostRuntime, options: Options) -> io::Result<()> {
    let heap = rt.alloc();
    let mut input = Vec::new(heap);
    rt.stdin().read_to_end(&mut input)?;
    let mut slots = free_slots(heap, options.slots)?;
    let mut store = Chained::new(&mut slots);
    with_mark(|mark| {
        let mut checker = Checker::new(heap, &mut store, mark)?;
        answer_all(rt, &mut checker, &input, options.explains)
    })
}

fn main(rt: HostRuntime) -> io::Result<ExitCode> {
    let mut options = Options::usual();
    for word in env::args(&rt)?.skip(1) {
        let word = word.as_str();
        match options.with(word) {
            Ok(more) => options = more,
            Err(fault) => {
                eprintln!(rt; "{word}: {fault}\nusage: checker [--slots=N] [--explain] < INPUT")?;
                return Ok(ExitCode::from(2));
            }
        }
    }
    check(rt, options)?;
    Ok(ExitCode::SUCCESS)
}
