// Totals over any measure: the weights of the open lives of a list, joined.
ghost use Rattle.std.specs.Prelude.{◌≡◌, ◌∷◌, ◌++◌, Some};
ghost use Rattle.life.specs.Parts.{LifeParts, key_parts, life_parts};
ghost use Rattle.life.specs.Lives.{Lives, plain, look, Unique, Same, altered, erase};
ghost use Rattle.measure.specs.Totals.{share_in, total_in};

use crate::measure::Measure;
use life::{Key, Life, State};

// The total of the lives of a list. It depends on the look-ups alone, not on the order of the list.
pub fn total_of<M: Measure>(lives: &[(Key, Life)]) -> M
    ensures sums { result ≡ total_in M.Measure (plain lives.now) }
    ensures unordered { (ps : Lives) → Unique (plain lives.now) → Unique ps → Same (plain lives.now) ps → result ≡ total_in M.Measure ps }
{
    let mut sum = M::zero();
    for (key, life) in lives {
        come(&mut sum, key, life);
    }
    sum
}

// A life comes, wherever it then stands in the list.
pub fn come<M: Measure>(sum: &mut M, key: &Key, life: &Life)
    ensures joins { sum.new ≡ M.joined sum.old (share_in M.Measure (key_parts key.now) (life_parts life.now)) }
    ensures sums { (ps qs : Lives) → sum.old ≡ total_in M.Measure (ps ++ qs) → sum.new ≡ total_in M.Measure (ps ++ (key_parts key.now, life_parts life.now) ∷ qs) }
{
    if let State::Open = life.state {
        sum.put(key, life);
    }
}

// The life of a key goes.
pub fn go<M: Measure>(sum: &mut M, key: &Key, life: &Life)
    ensures joins { sum.new ≡ M.joined sum.old (M.inverse (share_in M.Measure (key_parts key.now) (life_parts life.now))) }
    ensures sums { (ps : Lives) → Unique ps → look (key_parts key.now) ps ≡ Some (life_parts life.now) → sum.old ≡ total_in M.Measure ps → sum.new ≡ total_in M.Measure (erase (key_parts key.now) ps) }
{
    if let State::Open = life.state {
        sum.take(key, life);
    }
}

// The life of a key is altered, from `old` to `new`.
pub fn replace<M: Measure>(sum: &mut M, key: &Key, old: &Life, new: &Life)
    ensures joins { sum.new ≡ M.joined (M.joined sum.old (M.inverse (share_in M.Measure (key_parts key.now) (life_parts old.now)))) (share_in M.Measure (key_parts key.now) (life_parts new.now)) }
    ensures sums { (ps : Lives) (f : LifeParts → LifeParts) → Unique ps → look (key_parts key.now) ps ≡ Some (life_parts old.now) → f (life_parts old.now) ≡ life_parts new.now → sum.old ≡ total_in M.Measure ps → sum.new ≡ total_in M.Measure (altered (key_parts key.now) f ps) }
{
    go(sum, key, old);
    come(sum, key, new);
}
