// Times finds in both stores: `finds_stores HELD AMONG` holds that many keys and prints the time of one find among so many of
// them, or among all. Without an argument it makes a short run and prints only what was found.
#![tactic(auto)]

mod keys;

use chained::{Chained, Slot};
use keys::{Spread, fill, find_all, key_of};
use life::{Key, Life, Store};
use ordered::{Entry, Ordered};
use std::time::Instant;
use std::{env, io};

const FINDS: usize = 100_000;

const ROUNDS: usize = 20;

// The shortest of some rounds, as nanoseconds for each find.
fn timed<S: Store>(rt: HostRuntime, store: &S, wanted: &[Key], rounds: usize) -> io::Result<u128> {
    let mut least = u128::MAX;
    for _ in 0..rounds {
        let start = Instant::now(&rt)?;
        let sum = find_all(store, wanted);
        let spent = start.elapsed(&rt)?.as_nanos();
        if spent < least && sum != 1 {
            least = spent;
        }
    }
    Ok(least / FINDS as u128)
}

// Finds keys in both stores, and times so many rounds of that, if any.
fn run(rt: HostRuntime, spread: Spread, finds: usize, rounds: Option<usize>) -> io::Result<()> {
    let Spread { held, among } = spread;
    let heap = rt.alloc();
    let Some(key) = key_of(0) else {
        return Ok(());
    };
    let Some(life) = Life::new(0, 0, None) else {
        return Ok(());
    };
    let wanted = spread.queries(heap, finds)?;
    let mut slots = vec![in heap; Slot {
        head: 0,
        next: 0,
        key,
        life
    }; held as usize + 1]?;
    let mut chained = Chained::new(&mut slots);
    fill(&mut chained, held);
    let mut entries = vec![in heap; Entry { key, life }; held as usize]?;
    let mut ordered = Ordered::new(&mut entries);
    fill(&mut ordered, held);
    let one = find_all(&chained, &wanted);
    let other = find_all(&ordered, &wanted);
    println!(rt; "{held} held, {finds} finds among {among}: {one}, {other}")?;
    if let Some(rounds) = rounds {
        let c = timed(rt, &chained, &wanted, rounds)?;
        let o = timed(rt, &ordered, &wanted, rounds)?;
        println!(rt; "chained {c} ns a find, ordered {o} ns a find")?;
    }
    Ok(())
}

fn main(rt: HostRuntime) -> io::Result<()> {
    let mut numbers = env::args(&rt)?
        .skip(1)
        .filter_map(|text| text.as_str().parse::<u16>().ok());
    let Some(held) = numbers.find(|n| *n > 0) else {
        let spread = Spread {
            held: 40,
            among: 40,
        };
        return run(rt, spread, 1000, None);
    };
    let among = numbers.last().unwrap_or(held);
    let spread = Spread {
        held: u32::from(held),
        among: u32::from(among),
    };
    run(rt, spread, FINDS, Some(ROUNDS))
}
