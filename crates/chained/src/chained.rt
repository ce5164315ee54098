// A store over a lent table, by chains of slots.
ghost use Rattle.std.specs.Prelude.{◌≡◌, [], if◌then◌else◌, Some, None, OnErr};
ghost use Rattle.life.specs.Faults.{length_refused as refused};
ghost use Rattle.life.specs.Pairs.{look};
ghost use Rattle.chained.specs.Table.{allowed_length as allowed, Emptied};
ghost use Rattle.chained.specs.Tables.{pairs_in, room_in, Puts, Drops};

use crate::slot::Slot;
use crate::table::{MOST, Table};
use life::{Key, Life, NoRoom, Store, TableFault, check_length};

// Two layers are a rule of the project: a plain table that holds the lent slice, and around it the store with its promises.
// The store of `ordered` is alike but for names and two clauses, and both are written out: a trait of tables, over which one store could be
// generic, would say each clause of `Store` again, and `new` and `empty` promise different things: here they end the chains, there they write
// nothing.
#[derive(Drop)]
pub struct Chained<'t> {
    table: Table<'t>,
}

impl<'t> Chained<'t> {
    // Whether a table of `n` slots is allowed: 1 to 65,536.
    pub fn check(n: usize) -> Result<(), TableFault>
        ensures { refused result ≡ (if allowed n then None else Some 72) }
    {
        check_length::<MOST>(n)
    }

    // An empty store over the table, whatever it held. A table whose length is not allowed has no room and is left alone.
    pub fn new(slots: &'t mut [Slot]) -> Chained<'t>
        ensures none { pairs_in result.table ≡ [] }
        ensures table { Emptied slots.old result.table.slots.now }
    {
        Chained {
            table: Table::new(slots),
        }
    }
}

// A method's own clauses stand in place of the trait's and have to give them: `Puts` and `Drops` do, and `refused`,
// `absent` and `holds` are said again.
impl<'t> Store for Chained<'t> {
    ghost pairs = { λ s. pairs_in s.table };

    ghost room = { λ s. room_in s.table };

    ghost unique = { λ s. s.table.held.apart };

    ghost within = { λ s. s.table.held.within };

    fn capacity(&self) -> usize {
        self.table.room()
    }

    fn find(&self, key: &Key) -> Option<Life> {
        self.table.find(key)
    }

    fn put(&mut self, key: &Key, life: Life) -> Result<(), NoRoom>
        ensures table { Puts self.old.table self.new.table key.now life result }
        ensures refused { OnErr result (self.new ≡ self.old) }
    {
        self.table.put(key, life)
    }

    fn remove(&mut self, key: &Key)
        ensures table { Drops self.old.table self.new.table key.now }
        ensures absent { look key.now (pairs_in self.old.table) ≡ None → self.new ≡ self.old }
    {
        self.table.remove(key)
    }

    fn empty(&mut self)
        ensures holds { pairs_in self.new.table ≡ [] }
        ensures table { Emptied self.old.table.slots.now self.new.table.slots.now }
    {
        self.table.empty()
    }
}
