// What a run of calls leaves.
ghost use Rattle.std.specs.Prelude.{◌≡◌};

use crate::answer::Answer;
use crate::checker::Checker;
use life::Store;
use measure::Measure;

/// A checker after a list of calls, which can be read; its answers, of which those to calls for the
/// total say 'accepted'; and the totals that it was asked for. Both are in the order of the calls.
#[derive(Drop)]
pub struct CompletedRun<'s, S: Store, M: Measure> {
    pub(crate) checker: Checker<'static, 's, S, M>,
    pub answers: Vec<Answer>,
    pub totals: Vec<M>,
}

impl<'s, S: Store, M: Measure> CompletedRun<'s, S, M> {
    /// The checker, to be read: what it holds after the run, with no way to call it again.
    pub fn checker(&self) -> &Checker<'static, 's, S, M>
        ensures { result.now ≡ self.now.checker }
    {
        &self.checker
    }
}
