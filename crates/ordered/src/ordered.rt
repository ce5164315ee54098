// A store over a lent table, in the order of keys.
ghost use Rattle.std.specs.Prelude.{◌≡◌, [], if◌then◌else◌, Some, None, OnErr};
ghost use Rattle.life.specs.Faults.{length_refused as refused};
ghost use Rattle.life.specs.Pairs.{look};
ghost use Rattle.ordered.specs.Table.{allowed_length};
ghost use Rattle.ordered.specs.Tables.{pairs_in, room_in, Puts, Drops};

use crate::entry::Entry;
use crate::table::{LONGEST, Table};
use life::{Key, Life, NoRoom, Store, TableFault, check_length};

// Two layers are a rule of the project: a plain table that holds the lent slice, and around it the store with its promises.
// The store of `chained` is alike but for names and two clauses, and both are written out: a trait of tables, over which one store could be
// generic, would say each clause of `Store` again, and `new` and `empty` promise different things: here they write nothing, there they end the
// chains.
#[derive(Drop)]
pub struct Ordered<'t> {
    table: Table<'t>,
}

impl<'t> Ordered<'t> {
    // Whether a table of `n` entries is allowed: 1 to 65,535.
    pub fn check(n: usize) -> Result<(), TableFault>
        ensures { refused result ≡ (if allowed_length n then None else Some 72) }
    {
        check_length::<LONGEST>(n)
    }

    // An empty store over the table, whatever it held. It writes nothing yet; a table whose length is not allowed has no room.
    pub fn new(entries: &'t mut [Entry]) -> Ordered<'t>
        ensures none { pairs_in result.table ≡ [] }
        ensures same { result.table.entries.now ≡ entries.old }
    {
        Ordered {
            table: Table::new(entries),
        }
    }
}

// A method's own clauses stand in place of the trait's and have to give them: `Puts` and `Drops` do, and `refused`,
// `absent` and `holds` are said again.
impl<'t> Store for Ordered<'t> {
    ghost pairs = { λ s. pairs_in s.table };

    ghost room = { λ s. room_in s.table };

    ghost unique = { λ s. s.table.held.apart };

    ghost within = { λ s. s.table.held.within };

    fn capacity(&self) -> usize {
        self.table.room()
    }

    fn find(&self, key: &Key) -> Option<Life> {
        self.table.find(key)
    }

    fn put(&mut self, key: &Key, life: Life) -> Result<(), NoRoom>
        ensures table { Puts self.old.table self.new.table key.now life result }
        ensures refused { OnErr result (self.new ≡ self.old) }
    {
        self.table.put(key, life)
    }

    fn remove(&mut self, key: &Key)
        ensures table { Drops self.old.table self.new.table key.now }
        ensures absent { look key.now (pairs_in self.old.table) ≡ None → self.new ≡ self.old }
    {
        self.table.remove(key)
    }

    fn empty(&mut self)
        ensures holds { pairs_in self.new.table ≡ [] }
        ensures table { self.new.table.entries.now ≡ self.old.table.entries.now }
    {
        self.table.empty()
    }
}
