// The calls of a run that are not left out.
ghost use Rattle.std.specs.Prelude.{◌≡◌, length, drop, List, IfOk};
ghost use Rattle.calls.specs.Said.{calls_said};
ghost use Rattle.resends.specs.Marks.{MarkParts, mark_parts, marks_in, leaves_out, kept_calls, LastErrors};

use crate::mark::Mark;
use calls::Call;
use life::Key;
use std::alloc::{AllocError, Global};
use std::collections::BTreeMap;
use text::Action;

// For each key, the place of its last accepted Error.
fn last_errors(heap: Global, marks: &[Mark]) -> Result<BTreeMap<Key, usize>, AllocError>
    ensures { IfOk result (LastErrors (marks_in marks.now)) }
{
    let mut last = BTreeMap::new(heap);
    for (place, mark) in marks.iter().enumerate() {
        let Mark::Accepted { key, action } = *mark else {
            continue;
        };
        if action == Action::Error {
            last.insert(key, place)?;
        }
    }
    Ok(last)
}

// Whether the call with this mark is left out: the line was refused, or an Error of its key was accepted at its place or later.
fn left_out(mark: &Mark, place: usize, last: &BTreeMap<Key, usize>) -> bool
    ensures { (marks : List MarkParts) → LastErrors marks last.now → result ≡ leaves_out (drop place marks) (mark_parts mark.now) }
{
    match mark {
        Mark::NoLine => false,
        Mark::Refused => true,
        Mark::Accepted { key, .. } => last.get(key).is_some_and(|error| place <= *error),
    }
}

// The calls that are not left out, in their order. Their marks come beside them: pairs would copy every call.
pub(crate) fn survivors<'a>(
    heap: Global,
    calls: &[Call<'a>],
    marks: &[Mark],
) -> Result<Vec<Call<'a>>, AllocError>
    ensures { IfOk result (λ v. calls_said v.items ≡ kept_calls (calls_said calls.now) (marks_in marks.now)) }
{
    let last = last_errors(heap, marks)?;
    calls
        .iter()
        .zip(marks)
        .enumerate()
        .filter_map(|(place, (call, mark))| { (!left_out(mark, place, &last)).then_some(*call) })
        .collect(heap)
}
