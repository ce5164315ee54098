// What has to be sent again: reads the commands that the checker reads, and prints the report lines that survive, and the totals of the register
// that was given all lines and of the one that was given the survivors alone.
#![tactic(auto)]

use calls::{Call, CompletedRun};
use chained::Chained;
use commands::{SLOTS, free_slots, slots_of};
use life::Store;
use measure::{Both, CheckWord, Sheet};
use output::{AnswerLine, write_positions};
use resends::{ResendError, resend};
use session::calls_of_input;
use std::alloc::{AllocError, Global};
use std::io::{Read, Write};
use std::process::ExitCode;
use std::{env, io};

// Positions and a check word.
type Totals = Both<Sheet, CheckWord>;

// Room for a line of each of the 64 sums, and for a check word.
const ROOM: usize = 4096;

// Puts the lines of both totals at the end of a text.
fn put_totals<S: Store>(
    out: &mut Vec<u8>,
    run: &CompletedRun<S, Totals>,
) -> Result<(), AllocError> {
    let mut buffer = [0; ROOM];
    if let Ok(n) = write_positions(&mut buffer, &run.checker().positions()) {
        out.extend_from_slice(&buffer[..n])?;
    }
    let (_, word) = run.checker().total().parts();
    if let Ok(n) = (AnswerLine::CheckWord { word: word.word }).write(&mut buffer) {
        out.extend_from_slice(&buffer[..n])?;
    }
    Ok(())
}

// The text that is printed for an input.
fn text_of(heap: Global, input: &[u8], slots: usize) -> Result<Vec<u8>, ResendError> {
    let mut table = free_slots(heap, slots)?;
    let mut store = Chained::new(&mut table);
    let mut other_table = free_slots(heap, slots)?;
    let mut other = Chained::new(&mut other_table);
    let calls = calls_of_input(heap, input)?;
    let resent = resend(heap, &mut store, &mut other, &calls)?;
    let mut out = Vec::new(heap);
    for call in &resent.left {
        if let Call::Judge(_, line) = call {
            out.extend_from_slice(line)?;
            out.extend_from_slice(b"\n")?;
        }
    }
    put_totals(&mut out, &resent.first)?;
    put_totals(&mut out, &resent.second)?;
    Ok(out)
}

fn main(rt: HostRuntime) -> io::Result<ExitCode> {
    let heap = rt.alloc();
    let mut slots = SLOTS;
    for word in env::args(&rt)?.skip(1) {
        let word = word.as_str();
        match slots_of(word) {
            Ok(n) => slots = n,
            Err(fault) => {
                eprintln!(rt; "{word}: {fault}\nusage: resend [--slots=N] < INPUT")?;
                return Ok(ExitCode::from(2));
            }
        }
    }
    let mut input = Vec::new(heap);
    rt.stdin().read_to_end(&mut input)?;
    match text_of(heap, &input, slots) {
        Ok(text) => rt.stdout().write_all(&text)?,
        // the stores are of one capacity
        Err(_) => return Err(AllocError.into()),
    }
    Ok(ExitCode::SUCCESS)
}
