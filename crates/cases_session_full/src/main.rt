// A long mixed input over a chained store that is soon full.
#![tactic(auto)]

use calls::{Checker, with_mark};
use chained::Chained;
use commands::free_slots;
use session::answer_all;
use std::io;
use std::io::Read;

// Room for seven lives.
const FEW_SLOTS: usize = 8;

fn main(rt: HostRuntime) -> io::Result<()> {
    let heap = rt.alloc();
    let mut input = Vec::new(heap);
    rt.stdin().read_to_end(&mut input)?;
    let mut slots = free_slots(heap, FEW_SLOTS)?;
    let mut store = Chained::new(&mut slots);
    with_mark(|mark| {
        let mut checker = Checker::new(heap, &mut store, mark)?;
        answer_all(rt, &mut checker, &input, false)
    })
}
