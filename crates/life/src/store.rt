// What a store is: pairs of a key and a life, no key twice, up to a fixed number of them.
ghost use Rattle.std.specs.Prelude.{◌≡◌, ℕ, ◌≤◌, List, [], length, is_ok, None, OnErr};
ghost use Rattle.life.specs.declared.key.Key.{Key};
ghost use Rattle.life.specs.declared.life.Life.{Life};
ghost use Rattle.life.specs.Pairs.{look, erase, added, admits, Unique, Same};

use crate::key::Key;
use crate::life::Life;

// The key is new, and as many are held as there can be.
#[derive(Clone, Copy, PartialEq, Eq, Debug)]
pub struct NoRoom;

pub trait Store {
    // the pairs that it holds, in an order of its own
    ghost pairs: { Self → List (Key × Life) };

    // how many it can hold
    ghost room: { Self → ℕ };

    // no key is held twice
    ghost unique: { (s : Self) → Unique (pairs s) };

    // no more are held than can be
    ghost within: { (s : Self) → length (pairs s) ≤ room s };

    // How many pairs it can hold.
    fn capacity(&self) -> usize
        ensures { result ≡ room self.now };

    // The life at the key, if one is held.
    fn find(&self, key: &Key) -> Option<Life>
        ensures { result ≡ look key.now (pairs self.now) };

    // Puts the life at the key. Refused, and then the store is what it was, exactly where the key is new and the room is used up.
    fn put(&mut self, key: &Key, life: Life) -> Result<(), NoRoom>
        ensures fits { is_ok result ≡ admits (room self.old) key.now (pairs self.old) }
        ensures holds { Same (pairs self.new) (added (is_ok result) key.now life (pairs self.old)) }
        ensures refused { OnErr result (self.new ≡ self.old) }
        ensures keeps { room self.new ≡ room self.old };

    // Takes away the pair at the key. Where none is held the store is what it was.
    fn remove(&mut self, key: &Key)
        ensures holds { Same (pairs self.new) (erase key.now (pairs self.old)) }
        ensures absent { look key.now (pairs self.old) ≡ None → self.new ≡ self.old }
        ensures keeps { room self.new ≡ room self.old };

    // Takes every pair away.
    fn empty(&mut self)
        ensures holds { pairs self.new ≡ [] }
        ensures keeps { room self.new ≡ room self.old };
}
