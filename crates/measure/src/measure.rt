// A measure: a commutative group, and a weight that depends on a key and its life alone.
ghost use Rattle.std.specs.Prelude.{◌≡◌};
ghost use Rattle.life.specs.Parts.{KeyParts, LifeParts, key_parts, life_parts};
ghost use Rattle.measure.specs.Group.{Group};

use life::{Key, Life};

pub trait Measure: Sized + Drop {
    ghost nil: { Self };

    ghost joined: { Self → Self → Self };

    ghost inverse: { Self → Self };

    ghost weight: { KeyParts → LifeParts → Self };

    ghost laws: { Group nil joined inverse };

    fn zero() -> Self
        ensures { result ≡ nil };

    fn join(&mut self, other: &Self)
        ensures { self.new ≡ joined self.old other.now };

    fn invert(&mut self)
        ensures { self.new ≡ inverse self.old };

    fn weigh(key: &Key, life: &Life) -> Self
        ensures { result ≡ weight (key_parts key.now) (life_parts life.now) };

    // Joins the weight of a life. An `impl` may know a shorter way.
    fn put(&mut self, key: &Key, life: &Life)
        ensures { self.new ≡ joined self.old (weight (key_parts key.now) (life_parts life.now)) }
    {
        let more = Self::weigh(key, life);
        self.join(&more);
    }

    // Joins the inverse of the weight of a life.
    fn take(&mut self, key: &Key, life: &Life)
        ensures { self.new ≡ joined self.old (inverse (weight (key_parts key.now) (life_parts life.now))) }
    {
        let mut gone = Self::weigh(key, life);
        gone.invert();
        self.join(&gone);
    }
}
