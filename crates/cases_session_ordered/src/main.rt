// A long mixed input over the ordered store, with room for as many lives as the chained store of the checker: the answers are the same.
#![tactic(auto)]

use calls::{Checker, with_mark};
use commands::SLOTS;
use life::{Key, Life};
use ordered::{Entry, Ordered};
use session::answer_all;
use std::io;
use std::io::Read;
use text::{Kind, Side};

fn main(rt: HostRuntime) -> io::Result<()> {
    let heap = rt.alloc();
    let mut input = Vec::new(heap);
    rt.stdin().read_to_end(&mut input)?;
    // what an entry holds before it is used does not matter
    let key = Key::new(Kind::Order, b"", 0, &[0; 4], &[0; 12], Side::Buy).unwrap();
    let life = Life::new(0, 0, None).unwrap();
    let mut entries = vec![in heap; Entry { key, life }; SLOTS - 1]?;
    let mut store = Ordered::new(&mut entries);
    with_mark(|mark| {
        let mut checker = Checker::new(heap, &mut store, mark)?;
        answer_all(rt, &mut checker, &input, false)
    })
}
