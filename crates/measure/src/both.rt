// Two measures side by side.
ghost use Rattle.std.specs.Prelude.{◌≡◌};
ghost use Rattle.measure.specs.Boths.{both, both_joined, both_inverse, both_weight};
ghost use Rattle.measure.specs.Laws.{both_group};
ghost use Rattle.life.specs.Lives.{Lives};
ghost use Rattle.measure.specs.Totals.{total_in};

use crate::measure::Measure;
use life::{Key, Life};

#[derive(Drop)]
pub struct Both<A, B> {
    pub first: A,
    pub second: B,
}

impl<A: Measure, B: Measure> Both<A, B> {
    // The parts. Those of a total are the totals of the parts.
    pub fn parts(&self) -> (&A, &B)
        ensures one { result.0.now ≡ self.now.first }
        ensures other { result.1.now ≡ self.now.second }
        ensures totals { (ps : Lives) → self.now ≡ total_in ⟦<Both<A, B> as Measure>⟧ ps → (result.0.now ≡ total_in A.Measure ps) × (result.1.now ≡ total_in B.Measure ps) }
    {
        (&self.first, &self.second)
    }
}

impl<A: Measure, B: Measure> Measure for Both<A, B> {
    ghost nil = { both A.Measure.nil B.Measure.nil };

    ghost joined = { both_joined A.Measure.joined B.Measure.joined };

    ghost inverse = { both_inverse A.Measure.inverse B.Measure.inverse };

    ghost weight = { both_weight A.Measure.weight B.Measure.weight };

    ghost laws = { both_group A.Measure.laws B.Measure.laws };

    fn zero() -> Both<A, B> {
        Both {
            first: A::zero(),
            second: B::zero(),
        }
    }

    fn join(&mut self, other: &Both<A, B>) {
        self.first.join(&other.first);
        self.second.join(&other.second);
    }

    fn invert(&mut self) {
        self.first.invert();
        self.second.invert();
    }

    fn weigh(key: &Key, life: &Life) -> Both<A, B> {
        Both {
            first: A::weigh(key, life),
            second: B::weigh(key, life),
        }
    }

    fn put(&mut self, key: &Key, life: &Life) {
        self.first.put(key, life);
        self.second.put(key, life);
    }

    fn take(&mut self, key: &Key, life: &Life) {
        self.first.take(key, life);
        self.second.take(key, life);
    }
}
