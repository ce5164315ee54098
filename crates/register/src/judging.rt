// Making a register, asking it, and doing an action to the life of a key.
ghost use Rattle.std.specs.Prelude.{◌≡◌, [], ◌∷◌, length, if◌then◌else◌, Some, None, OnErr, nat_le};
ghost use Rattle.std.specs.List.{AllByRecursion};
ghost use Rattle.life.specs.Acts.{life_in};
ghost use Rattle.life.specs.Lives.{look, Same, altered, erase};
ghost use Rattle.life.specs.Parts.{LifeParts, key_parts, life_parts};
ghost use Rattle.measure.specs.Positions.{Within};
ghost use Rattle.measure.specs.Totals.{total_in};
ghost use Rattle.register.specs.Faults.{refused_by};
ghost use Rattle.register.specs.Held.{Kept};
ghost use Rattle.register.specs.Judged.{act_refusal, lives_after};

use crate::faults::ActFault;
use crate::register::Register;
use life::{Key, Life, NoRoom, Outcome, Store, first};
use measure::{Measure, come, go, replace};
use text::Action;

// Clauses tell the total again where a caller needs it: a model's invariant is not seen from outside, and its value can't name a bound's members.
impl<'s, S: Store, M: Measure> Register<'s, S, M> {
    // A register over an emptied store, with a total of zero.
    pub fn new(store: &'s mut S) -> Register<'s, S, M>
        ensures room { result.room ≡ S.room store.old }
        ensures lives { result.lives ≡ [] }
        ensures total { result.total ≡ M.nil }
    {
        store.empty();
        Register {
            store,
            total: M::zero(),
        }
    }

    // How many lives may be held.
    pub fn capacity(&self) -> usize
        ensures { result ≡ self.now.room }
    {
        self.store.capacity()
    }

    // The life of a key, if one stands.
    pub fn find(&self, key: &Key) -> Option<Life>
        ensures found { life_in result ≡ look (key_parts key.now) self.now.lives }
        ensures sums { self.now.total ≡ total_in M.Measure self.now.lives }
    {
        self.store.find(key)
    }

    // The total of the open lives, whose contracts and quantities are within the bounds that positions ask for.
    pub fn total(&self) -> &M
        ensures told { result.now ≡ self.now.total }
        ensures sums { result.now ≡ total_in M.Measure self.now.lives }
        ensures bounded { AllByRecursion Within self.now.lives }
    {
        &self.total
    }

    // Does an action to the life of a key, as `told` by its line: time, quantity and price. Refused, the register is what it was.
    pub fn judge(&mut self, key: &Key, action: Action, told: &Life) -> Result<(), ActFault>
        ensures answers { refused_by result ≡ act_refusal self.old.room (key_parts key.now) action (life_parts told.now) self.old.lives }
        ensures holds { Same self.new.lives (lives_after (act_refusal self.old.room (key_parts key.now) action (life_parts told.now) self.old.lives) (key_parts key.now) action (life_parts told.now) self.old.lives) }
        ensures refused { OnErr result (self.new ≡ self.old) }
        ensures keeps { self.new.room ≡ self.old.room }
        ensures sums { self.new.total ≡ total_in M.Measure self.new.lives }
    {
        let Some(old) = self.find(key) else {
            let life = first(action, told)?;
            return self.enter(key, life);
        };
        let mut life = old;
        match life.act(action, told)? {
            Outcome::Stays => self.alter(key, &old, life),
            Outcome::Ends => self.strike(key, &old),
        }
        Ok(())
    }

    // A life enters, if there is room.
    fn enter(&mut self, key: &Key, life: Life) -> Result<(), ActFault>
        requires { look (key_parts key.now) self.old.lives ≡ None }
        ensures answers { refused_by result ≡ (if nat_le self.old.room (length self.old.lives) then Some (47, 0) else None) }
        ensures holds { Same self.new.lives (if nat_le self.old.room (length self.old.lives) then self.old.lives else (key_parts key.now, life_parts life) ∷ self.old.lives) }
        ensures refused { OnErr result (self.new ≡ self.old) }
        ensures kept { Kept M.Measure self.old self.new }
    {
        match self.store.put(key, life) {
            Ok(()) => {
                come(&mut self.total, key, &life);
                Ok(())
            }
            Err(NoRoom) => Err(ActFault::Full),
        }
    }

    // The life of a key is altered, from `old` to `new`: a held key always has its place.
    fn alter(&mut self, key: &Key, old: &Life, new: Life)
        requires { look (key_parts key.now) self.old.lives ≡ Some (life_parts old.now) }
        ensures holds { (f : LifeParts → LifeParts) → f (life_parts old.now) ≡ life_parts new → Same self.new.lives (altered (key_parts key.now) f self.old.lives) }
        ensures kept { Kept M.Measure self.old self.new }
    {
        let _ = self.store.put(key, new);
        replace(&mut self.total, key, old, &new);
    }

    // The life of a key goes.
    fn strike(&mut self, key: &Key, old: &Life)
        requires { look (key_parts key.now) self.old.lives ≡ Some (life_parts old.now) }
        ensures holds { Same self.new.lives (erase (key_parts key.now) self.old.lives) }
        ensures kept { Kept M.Measure self.old self.new }
    {
        self.store.remove(key);
        go(&mut self.total, key, old);
    }
}
