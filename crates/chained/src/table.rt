// A table of slots: which slot has a key, and how a pair comes into its chain and out of it.
ghost use Rattle.std.specs.Prelude.{◌≡◌, ℕ, ◌<◌, ◌≤◌, length, None, Ok, OnErr, nat_le, unwrap_or};
ghost use Rattle.life.specs.Pairs.{look};
ghost use Rattle.chained.specs.Table.{at, slot_limit, chain_of, re, Linked, HasChain, InUse, Sound, Spot, Place, Rewired, Paired, Kept, Emptied, Held};

use crate::slot::Slot;
use life::{Key, Life, NoRoom};

// The most slots of a table.
pub(crate) const MOST: usize = 65536;

// The chain of a key in a table of `n` slots.
fn chain(key: &Key, n: usize) -> usize
    requires { 2 ≤ n }
    ensures is { result ≡ chain_of key.now n }
    ensures low { 0 < result }
    ensures high { result < n }
{
    1 + key.word as usize % (n - 1)
}

// The functions from here to `link` take slots, not a `Table`: they are called between the writes of `add` and `take_out`, where
// its invariant does not hold, and `set_pair` in `put` too.

// Sets the link at `p`, or the head of the chain `b` where `p` is None. In the contracts the number 0 stands for the head.
fn set_link(slots: &mut [Slot], b: usize, p: Option<usize>, v: usize)
    requires chain { b < length slots.old }
    requires place { Spot p (length slots.old) }
    requires small { v ≤ slot_limit }
    ensures { Rewired slots.old slots.new b (unwrap_or p 0) v }
{
    match p {
        None => slots[b].head = v as u32,
        Some(p) => slots[p].next = v as u32,
    }
}

// Writes the pair of the slot `i`.
fn set_pair(slots: &mut [Slot], i: usize, key: Key, life: Life)
    requires { i < length slots.old }
    ensures { Paired slots.old slots.new i key life }
{
    let slot = &mut slots[i];
    slot.key = key;
    slot.life = life;
}

// The place in the chain `b` whose link passes over `i`, or None for the head.
fn place(slots: &[Slot], count: usize, b: usize, i: usize) -> Option<usize>
    requires { HasChain slots.now count b }
    ensures spot { Spot result (length slots.now) }
    ensures passes { Place slots.now count b i (unwrap_or result 0) }
{
    // A loop: it follows links, and ends since they fall. To the library `std::iter::successors` is endless: `last` may be called on it only
    // behind a `take`. Then a count ends the walk and not the links, and the check leaves open what this function ensures.
    let mut p = None;
    let mut j = slots[b].head as usize;
    while j > i {
        p = Some(j);
        j = slots[j].next as usize;
    }
    p
}

// Takes the slot `i` out of the chain `b`.
fn unlink(slots: &mut [Slot], count: usize, b: usize, i: usize)
    requires chain { HasChain slots.old count b }
    requires slot { InUse slots.old count i }
    requires next { (at slots.old i).next ≤ slot_limit }
    ensures kept { Kept slots.old slots.new }
    ensures linked { (K : ℕ → ℕ) → Linked K slots.old count → K i ≡ b → Linked (re K i 0) slots.new count }
{
    let after = slots[i].next as usize;
    let p = place(slots, count, b, i);
    set_link(slots, b, p, after);
}

// Puts the slot `i` into the chain `b`.
fn link_in(slots: &mut [Slot], count: usize, b: usize, i: usize)
    requires chain { HasChain slots.old count b }
    requires slot { InUse slots.old count i }
    ensures kept { Kept slots.old slots.new }
    ensures linked { (K : ℕ → ℕ) → Linked K slots.old count → K i ≡ 0 → Linked (re K i b) slots.new count }
{
    let p = place(slots, count, b, i);
    let after = link(slots, b, p);
    set_link(slots, b, Some(i), after);
    set_link(slots, b, p, i);
}

// The link at `p`, or the head of the chain `b` where `p` is None.
fn link(slots: &[Slot], b: usize, p: Option<usize>) -> usize
    requires chain { b < length slots.now }
    requires place { Spot p (length slots.now) }
    ensures head { unwrap_or p 0 ≡ 0 → result ≡ (at slots.now b).head }
    ensures next { 0 < unwrap_or p 0 → result ≡ (at slots.now (unwrap_or p 0)).next }
{
    match p {
        None => slots[b].head as usize,
        Some(p) => slots[p].next as usize,
    }
}

// Ends every chain, unless there are too many slots.
fn prepare(slots: &mut [Slot])
    ensures { Emptied slots.old slots.new }
{
    if slots.len() > MOST {
        return;
    }
    for slot in slots.iter_mut() {
        slot.head = 0;
    }
}

// A lent table, and how many of its slots are in use, each in the chain of its key. The table of `ordered` has methods of these
// names, but for `add` and `take_out`, which are `insert` and `delete` there, and works on its entries in another way: only
// `is_full` is the same.
#[derive(Drop)]
pub(crate) struct Table<'t> {
    pub(crate) slots: &'t mut [Slot],
    pub(crate) count: usize,
    ghost held: { Held slots.now count },
}

impl<'t> Table<'t> {
    ghost use Rattle.chained.specs.Tables.{pairs_in, room_in, Finds, Puts, Drops};

    // No slot is in use yet. A table with too many slots is left alone.
    pub(crate) fn new(slots: &'t mut [Slot]) -> Table<'t>
        ensures count { result.count ≡ 0 }
        ensures table { Emptied slots.old result.slots.now }
    {
        prepare(slots);
        Table { slots, count: 0 }
    }

    // How many slots can be in use.
    pub(crate) fn room(&self) -> usize
        ensures { result ≡ room_in self.now }
    {
        let n = self.slots.len();
        if n <= MOST { n.saturating_sub(1) } else { 0 }
    }

    // The slot of the key, if it is held. A table whose length is not allowed holds none.
    fn place_of(&self, key: &Key) -> Option<usize>
        ensures { Finds self.now key.now result }
    {
        let slots = &*self.slots;
        let n = slots.len();
        if n < 2 || n > MOST {
            return None;
        }
        // A loop, as in `place`: `find` may not be called on `successors` either.
        let mut j = slots[chain(key, n)].head as usize;
        while j > 0 {
            let slot = &slots[j];
            if slot.key.same(key) {
                return Some(j);
            }
            j = slot.next as usize;
        }
        None
    }

    // Whether no slot is free.
    fn is_full(&self) -> bool
        ensures { result ≡ nat_le (room_in self.now) self.now.count }
    {
        self.count >= self.room()
    }

    // The life at the key, if one is held.
    pub(crate) fn find(&self, key: &Key) -> Option<Life>
        ensures { result ≡ look key.now (pairs_in self.now) }
    {
        let i = self.place_of(key)?;
        Some(self.slots[i].life)
    }

    // Puts the life at the key. Refused where the key is new and the table is full.
    pub(crate) fn put(&mut self, key: &Key, life: Life) -> Result<(), NoRoom>
        ensures puts { Puts self.old self.new key.now life result }
        ensures refused { OnErr result (self.new ≡ self.old) }
    {
        if let Some(i) = self.place_of(key) {
            set_pair(self.slots, i, *key, life);
            return Ok(());
        }
        if self.is_full() {
            return Err(NoRoom);
        }
        self.add(key, life);
        Ok(())
    }

    // Takes the slot after the last one in use for a new key.
    fn add(&mut self, key: &Key, life: Life)
        requires room { self.old.count < room_in self.old }
        requires fresh { Finds self.old key.now None }
        ensures { Puts self.old self.new key.now life (Ok tt) }
    {
        // Between the writes the invariant does not hold. They go through a reborrow, so that it has to hold again only at the end.
        let slots = &mut *self.slots;
        let b = chain(key, slots.len());
        let t = self.count + 1;
        let first = slots[b].head as usize;
        set_link(slots, b, Some(t), first);
        set_pair(slots, t, *key, life);
        set_link(slots, b, None, t);
        self.count = t;
    }

    // Takes away the pair at the key, if there is one.
    pub(crate) fn remove(&mut self, key: &Key)
        ensures drops { Drops self.old self.new key.now }
        ensures absent { look key.now (pairs_in self.old) ≡ None → self.new ≡ self.old }
    {
        if let Some(i) = self.place_of(key) {
            self.take_out(i);
        }
    }

    // Takes the slot `i` out of use. The last slot in use moves to its place.
    // `sound` follows from the invariant where a slot is in use. It is a clause: without it nine more goals stay open, the bounds of
    // `slots[count]` and what the calls below require, and seven where a lemma that opens the invariant is named for the whole function.
    fn take_out(&mut self, i: usize)
        requires sound { Sound self.old.slots.now self.old.count }
        requires low { 0 < i }
        requires high { i ≤ self.old.count }
        ensures { Drops self.old self.new (at self.old.slots.now i).key }
    {
        // Through a reborrow, as in `add`.
        let slots = &mut *self.slots;
        let count = self.count;
        self.count -= 1;
        let n = slots.len();
        let b = chain(&slots[i].key, n);
        unlink(slots, count, b, i);
        if i == count {
            return;
        }
        let last = slots[count];
        let d = chain(&last.key, n);
        unlink(slots, count, d, count);
        set_pair(slots, i, last.key, last.life);
        link_in(slots, count, d, i);
    }

    // Takes every pair away. A table with too many slots is left alone.
    pub(crate) fn empty(&mut self)
        ensures count { self.new.count ≡ 0 }
        ensures room { room_in self.new ≡ room_in self.old }
        ensures table { Emptied self.old.slots.now self.new.slots.now }
    {
        prepare(self.slots);
        self.count = 0;
    }
}
