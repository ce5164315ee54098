// A table of entries in rising order of their keys.
ghost use Rattle.std.specs.Prelude.{◌≡◌, ◌<◌, None, Ok, Err, OnErr, nat_le};
ghost use Rattle.life.specs.Pairs.{look};
ghost use Rattle.ordered.specs.Table.{at, Held};

use crate::entry::Entry;
use life::{Key, Life, NoRoom};
use std::cmp::Ordering;

// The most entries of a table.
pub(crate) const LONGEST: usize = 65535;

// A lent table, and how many of its entries are in use, in the order of their keys.
#[derive(Drop)]
pub(crate) struct Table<'t> {
    pub(crate) entries: &'t mut [Entry],
    pub(crate) count: usize,
    ghost held: { Held entries.now count },
}

impl<'t> Table<'t> {
    ghost use Rattle.ordered.specs.Tables.{pairs_in, room_in, Finds, Puts, Drops};

    // No entry is in use yet.
    pub(crate) fn new(entries: &'t mut [Entry]) -> Table<'t>
        ensures count { result.count ≡ 0 }
        ensures same { result.entries.now ≡ entries.old }
    {
        Table { entries, count: 0 }
    }

    // How many entries it can hold: none where its length is not allowed.
    pub(crate) fn room(&self) -> usize
        ensures { result ≡ room_in self.now }
    {
        let n = self.entries.len();
        if n <= LONGEST { n } else { 0 }
    }

    // Where the key stands, or else where it belongs.
    fn place_of(&self, key: &Key) -> Result<usize, usize>
        ensures { Finds self.now key.now result }
    {
        // Written out: it stops at an equal key. The slice's `binary_search_by` goes on, and a find among 4,000 took 211 ns, here 158.
        // The bar is the time of the loop before; docs/FIGURES.md has the figures of finds with the loop.
        let entries = &*self.entries;
        let mut low = 0;
        let mut high = self.count;
        while low < high {
            let middle = low + (high - low) / 2;
            match entries[middle].key.compare(key) {
                Ordering::Less => low = middle + 1,
                Ordering::Equal => return Ok(middle),
                Ordering::Greater => high = middle,
            }
        }
        Err(low)
    }

    // Whether no entry is free.
    fn is_full(&self) -> bool
        ensures { result ≡ nat_le (room_in self.now) self.now.count }
    {
        self.count >= self.room()
    }

    // The life at the key, if one is held.
    pub(crate) fn find(&self, key: &Key) -> Option<Life>
        ensures { result ≡ look key.now (pairs_in self.now) }
    {
        match self.place_of(key) {
            Ok(i) => Some(self.entries[i].life),
            Err(_) => None,
        }
    }

    // Puts the life at the key. Refused where the key is new and the table is full.
    pub(crate) fn put(&mut self, key: &Key, life: Life) -> Result<(), NoRoom>
        ensures puts { Puts self.old self.new key.now life result }
        ensures refused { OnErr result (self.new ≡ self.old) }
    {
        match self.place_of(key) {
            Ok(i) => {
                self.entries[i] = Entry { key: *key, life };
                Ok(())
            }
            Err(i) => {
                if self.is_full() {
                    return Err(NoRoom);
                }
                self.insert(i, Entry { key: *key, life });
                Ok(())
            }
        }
    }

    // Moves the entries from `i` on up by one place, and writes the new one at `i`, where its key belongs.
    fn insert(&mut self, i: usize, entry: Entry)
        requires place { Finds self.old entry.key (Err i) }
        requires room { self.old.count < room_in self.old }
        ensures { Puts self.old self.new entry.key entry.life (Ok tt) }
    {
        // Between the writes the order does not hold. They go through a reborrow, so that it has to hold again only at the end.
        let entries = &mut *self.entries;
        entries.copy_within(i..self.count, i + 1);
        entries[i] = entry;
        self.count += 1;
    }

    // Takes away the entry of the key, if there is one.
    pub(crate) fn remove(&mut self, key: &Key)
        ensures drops { Drops self.old self.new key.now }
        ensures absent { look key.now (pairs_in self.old) ≡ None → self.new ≡ self.old }
    {
        if let Ok(i) = self.place_of(key) {
            self.delete(i);
        }
    }

    // Moves the entries past `i` down by one place.
    fn delete(&mut self, i: usize)
        requires { i < self.old.count }
        ensures { Drops self.old self.new (at self.old.entries.now i).key }
    {
        self.entries.copy_within(i + 1..self.count, i);
        self.count -= 1;
    }

    // Takes every entry away.
    pub(crate) fn empty(&mut self)
        ensures count { self.new.count ≡ 0 }
        ensures same { self.new.entries.now ≡ self.old.entries.now }
    {
        self.count = 0;
    }
}
