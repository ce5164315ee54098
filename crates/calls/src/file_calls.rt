// The calls on files: each takes the token of its file. A file is named, then identified, then closed; one only named may be withdrawn.
ghost use Rattle.std.specs.Prelude.{◌≡◌, ℕ, ◌+◌, true, false, length, IfOk, OnOk, OnErr, MatchResult};
ghost use Rattle.book.specs.Book.{NameFile, Identify as IdentifyCall, Withdraw as WithdrawCall, Close as CloseCall};
ghost use Rattle.calls.specs.FileAnswers.{had_memory};
ghost use Rattle.calls.specs.Held.{Continues, Stays, NamesFile, HasPlaces, KeepsPlaces, with_places};
ghost use Rattle.calls.specs.Said.{naming_answer, token_answer, ending_answer};

use crate::checker::Checker;
use crate::files::{IdentifiedFile, IdentifyFault, NamedFile, NamingError, PlaceFault, Receipt};
use life::Store;
use measure::Measure;
use std::alloc::AllocError;

impl<'id, 's, S: Store, M: Measure> Checker<'id, 's, S, M> {
    /// Reserves places for so many more files, so that naming them wants no memory. Memory is
    /// wanting only where fewer places are left, and then the checker is what it was.
    pub fn reserve(&mut self, files: usize) -> Result<(), AllocError>
        ensures room { OnOk result (HasPlaces self.new files) }
        ensures kept { KeepsPlaces self.old self.new }
        ensures same { self.new ≡ with_places self.new.files.places self.old }
        ensures stays { Stays M.Measure self.old self.new }
        ensures wanting { OnErr result (HasPlaces self.old files → ⊥) }
        ensures refused { OnErr result (self.new ≡ self.old) }
    {
        self.files.reserve(files)
    }

    /// Names a file; its number is how many were named before. Where it is refused, and where
    /// memory is wanting, which is no answer, the checker is what it was. Memory is wanting only
    /// where the name is good and no place is left for it (`reserve`).
    pub fn name_file(&mut self, name: &[u8]) -> Result<NamedFile<'id>, NamingError>
        ensures number { IfOk result (λ file. file.number ≡ length (self.old.files.files)) }
        ensures follows { had_memory result ≡ true → Continues M.Measure self.old (NameFile name.now) (naming_answer result) self.new }
        ensures memory { had_memory result ≡ false → Stays M.Measure self.old self.new }
        ensures wanting { had_memory result ≡ false → NamesFile (NameFile name.now) }
        ensures reserved { HasPlaces self.old 1 → had_memory result ≡ true }
        ensures refused { OnErr result (self.new ≡ self.old) }
        ensures places { (more : ℕ) → HasPlaces self.old (more + 1) → HasPlaces self.new more }
        ensures lives { self.new.register ≡ self.old.register }
    {
        self.files.name(name)
    }

    /// Identifies a named file by the code of its entity. A refusal hands the token back as it was,
    /// and the checker is what it was.
    pub fn identify(
        &mut self,
        file: NamedFile<'id>,
        code: &[u8],
    ) -> Result<IdentifiedFile<'id>, (IdentifyFault, NamedFile<'id>)>
        ensures token { MatchResult result (λ identified. identified.number ≡ file.entry.number) (λ refusal. refusal.1 ≡ file.entry) }
        ensures follows { Continues M.Measure self.old (IdentifyCall file.entry.number code.now) (token_answer result) self.new }
        ensures refused { OnErr result (self.new ≡ self.old) }
        ensures places { KeepsPlaces self.old self.new }
        ensures lives { self.new.register ≡ self.old.register }
    {
        self.files.identify(file, &self.entities, code)
    }

    /// Ends a file that is only named, and gives its receipt. Refused, the checker is what it was.
    pub fn withdraw(&mut self, file: NamedFile<'id>) -> Result<Receipt, PlaceFault>
        ensures follows { Continues M.Measure self.old (WithdrawCall file.entry.number) (ending_answer result) self.new }
        ensures refused { OnErr result (self.new ≡ self.old) }
        ensures places { KeepsPlaces self.old self.new }
        ensures lives { self.new.register ≡ self.old.register }
    {
        self.files.withdraw(file)
    }

    /// Ends an identified file, and gives its receipt. Refused, the checker is what it was.
    pub fn close(&mut self, file: IdentifiedFile<'id>) -> Result<Receipt, PlaceFault>
        ensures follows { Continues M.Measure self.old (CloseCall file.entry.number) (ending_answer result) self.new }
        ensures refused { OnErr result (self.new ≡ self.old) }
        ensures places { KeepsPlaces self.old self.new }
        ensures lives { self.new.register ≡ self.old.register }
    {
        self.files.close(file)
    }
}
