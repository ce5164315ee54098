// The book: what is held and answered, said by the capacity and the calls alone, and the laws over whole runs of it.
// The laws stand on the contracts of the functions below.
#![tactic(auto)]

ghost use Rattle.std.specs.Prelude.{◌≡◌, ℕ, List, length, is_some, if◌then◌else◌, Option};
ghost use Rattle.line.specs.Lines.{Reported};
ghost use Rattle.filing.specs.Files.{judged_limit};
ghost use Rattle.life.specs.Parts.{KeyParts};
ghost use Rattle.book.specs.Cases.{cases, CasesStand};
ghost use Rattle.book.specs.Edges.{edges, EdgesStand, EndingsStand};
ghost use Rattle.book.specs.FileLaws.{FilesLaw};
ghost use Rattle.book.specs.Laws.{a_line, Entry, struck, left_out, SurvivorsLaw, Deed, some_cancel, state_since, LifeLaw, TidyLaw};
ghost use Rattle.measure.specs.Totals.{while_open};
ghost use Rattle.book.specs.Totals.{TotalsLaw};

use life::State;

// ---- The laws, each proved on a function of its own

fn cases_stand()
    ensures { CasesStand }
{}

fn edges_stand()
    ensures { EdgesStand }
{}

fn endings_stand()
    ensures { EndingsStand }
{}

fn books_stay_tidy()
    ensures { TidyLaw }
{}

fn files_count()
    ensures { FilesLaw }
{}

fn lives_stand()
    ensures { LifeLaw }
{}

fn survivors_stand()
    ensures { SurvivorsLaw }
{}

fn totals_stand<V>()
    ensures { TotalsLaw V }
{}

// ---- What the book's users call

// How many worked cases there are. The rules give each of them.
pub fn worked_cases() -> u8
    ensures all { result ≡ length cases }
    ensures stand { CasesStand }
{
    cases_stand();
    15
}

// How many examples there are at the rows and limits of the tables. The rules give each of them, and what is held and told afterwards.
pub fn worked_edges() -> u8
    ensures all { result ≡ length edges }
    ensures stand { EdgesStand }
    ensures held { EndingsStand }
{
    edges_stand();
    endings_stand();
    53
}

// The most lines judged in a file. In every run, each judged line counts once in its file, no key
// has two lives, there are no more lives than the capacity, and no entity and no contract id is
// listed twice. The lines judged in a file are the Judge calls on it that were answered neither 66
// nor 9; it ends at most once, and its receipt has its counts.
pub fn most_lines() -> u32
    ensures limit { result ≡ judged_limit }
    ensures tidy { TidyLaw }
    ensures files { FilesLaw }
{
    books_stay_tidy();
    files_count();
    1_000_000
}

// The state of a life, with or without a Cancel since its New. After every run, a key has a life exactly when its accepted lines end in a New with
// no Error after it; its time is that of the last accepted line, its quantity and price those of the last New or Modify.
pub fn state_since(cancel: bool) -> State
    ensures state { (ds : List Deed) → some_cancel ds ≡ cancel → result ≡ state_since ds }
    ensures life { LifeLaw }
{
    lives_stand();
    if cancel {
        State::Cancelled
    } else {
        State::Open
    }
}

// Whether a judged line is left out of the survivors: it was refused, or an accepted Error ended its life. The survivors of every run, by
// themselves, are all accepted and end in the same lives.
pub fn is_left_out(refused: bool, ended: bool) -> bool
    ensures rule { (es : List Entry) (k : KeyParts) (line : Reported) (v : Option (ℕ × ℕ)) → is_some v ≡ refused → struck k es ≡ ended → result ≡ left_out es (a_line k line) v }
    ensures law { SurvivorsLaw }
{
    survivors_stand();
    refused || ended
}

// Whether a life brings its weight to the total. Lists of lives with the same look-ups and no key twice have the same total, in any commutative
// group.
pub fn brings_weight<V>(state: State) -> bool
    ensures shares { (nil weight : V) → while_open nil state weight ≡ (if result then weight else nil) }
    ensures totals { TotalsLaw V }
{
    totals_stand::<V>();
    matches!(state, State::Open)
}
