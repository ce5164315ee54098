// A long mixed input, over the chained store with as many slots as the checker has where no option says another number.
#![tactic(auto)]

use calls::{Checker, with_mark};
use chained::Chained;
use commands::{SLOTS, free_slots};
use session::answer_all;
use std::io;
use std::io::Read;

fn main(rt: HostRuntime) -> io::Result<()> {
    let heap = rt.alloc();
    let mut input = Vec::new(heap);
    rt.stdin().read_to_end(&mut input)?;
    let mut slots = free_slots(heap, SLOTS)?;
    let mut store = Chained::new(&mut slots);
    with_mark(|mark| {
        let mut checker = Checker::new(heap, &mut store, mark)?;
        answer_all(rt, &mut checker, &input, false)
    })
}
