// Keys by number, and finds over many of them.
use life::{Key, Life, Store};
use std::alloc::{AllocError, Global};
use text::{Kind, Side};

// The trade of a number: its id has eight digits, so that the order of keys is that of numbers.
pub(crate) fn key_of(number: u32) -> Option<Key> {
    // Digit by digit: the number's last eight, with zeros before them. A format would ask for memory, and for a `Result` here and in each caller.
    let mut id = [b'0'; 8];
    let mut rest = number;
    for digit in id.iter_mut().rev() {
        *digit = b'0' + (rest % 10) as u8;
        rest /= 10;
    }
    Key::new(Kind::Trade, &id, 1, b"XBIL", b"A0000000A.EU", Side::Buy)
}

// Puts a life at each number below `held`, with that number as its time.
pub(crate) fn fill<S: Store>(store: &mut S, held: u32) {
    for i in 0..held {
        if let (Some(key), Some(life)) = (key_of(i), Life::new(i, 100, None)) {
            let _ = store.put(&key, life);
        }
    }
}

// How many keys are held, and among how many of them, evenly spread, finds go.
#[derive(Clone, Copy)]
pub(crate) struct Spread {
    pub(crate) held: u32,
    pub(crate) among: u32,
}

impl Spread {
    // One of the numbers that finds go among.
    fn one(self, number: u32) -> u32 {
        if self.among == 0 {
            return 0;
        }
        (number % self.among).wrapping_mul(self.held / self.among)
    }

    // So many keys of those numbers, in an order without a pattern.
    pub(crate) fn queries(self, heap: Global, finds: usize) -> Result<Vec<Key>, AllocError> {
        let mut keys = Vec::new(heap);
        let mut state: u64 = 1;
        for _ in 0..finds {
            state = state
                .wrapping_mul(6364136223846793005)
                .wrapping_add(1442695040888963407);
            if let Some(key) = key_of(self.one((state >> 33) as u32)) {
                keys.push(key)?;
            }
        }
        Ok(keys)
    }
}

// The sum of the times of the lives found.
pub(crate) fn find_all<S: Store>(store: &S, keys: &[Key]) -> u64 {
    let mut sum: u64 = 0;
    for key in keys {
        if let Some(life) = store.find(key) {
            sum = sum.wrapping_add(u64::from(life.time));
        }
    }
    sum
}
