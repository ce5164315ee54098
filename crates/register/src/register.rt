// A store of lives, and the total of what its open lives weigh.
ghost use Rattle.std.specs.Prelude.{◌≡◌};
ghost use Rattle.life.specs.Lives.{plain};
ghost use Rattle.measure.specs.Totals.{total_in};
ghost use Rattle.register.specs.Held.{Held, held};

use life::Store;
use measure::Measure;
use std::marker::Model;

// The bounds stand on the type since its model reads their members; without them no function of it could be called before either.
#[derive(Drop)]
pub struct Register<'s, S: Store, M: Measure> {
    pub(crate) store: &'s mut S,
    pub(crate) total: M,
}

// Clauses see its room, its lives in the order of the store, and their total, which is always the joined weights of the open ones.
impl<'s, S: Store, M: Measure> Model for Register<'s, S, M> {
    ghost Value = { Held M };

    ghost view = { λ r. held (S.room r.store.now) (S.pairs r.store.now) (S.unique r.store.now) (S.within r.store.now) r.total };

    ghost invariant = { λ r. r.total ≡ total_in M.Measure (plain (S.pairs r.store.now)) };
}
