// Calls on a file by its token, which is given up, or handed back by a refusal to identify.
ghost use Rattle.std.specs.Prelude.{◌≡◌, IfOk, OnErr, MatchResult};
ghost use Rattle.text.specs.Rows.{first_fit};
ghost use Rattle.calls.specs.FileAnswers.{token_refusal, place_refusal, receipt_of};
ghost use Rattle.filing.specs.Files.{identifying_rows, withdrawing_rows, closing_rows};
ghost use Rattle.calls.specs.FilesAfter.{file_of, identified_in, withdrawn_in, closed_in};
ghost use Rattle.calls.specs.FilesHeld.{with_files};

use crate::files::faults::{IdentifyFault, PlaceFault};
use crate::files::list::FileList;
use crate::files::receipt::Receipt;
use crate::files::token::{IdentifiedFile, NamedFile};
use filing::EntityList;

impl FileList {
    // Identifies a file by the code of its entity. A refusal hands the token back.
    pub(crate) fn identify<'id>(
        &mut self,
        file: NamedFile<'id>,
        entities: &EntityList,
        code: &[u8],
    ) -> Result<IdentifiedFile<'id>, (IdentifyFault, NamedFile<'id>)>
        ensures told { token_refusal result ≡ first_fit identifying_rows (entities.now, file_of self.old.files file.entry.number, code.now) }
        ensures token { MatchResult result (λ identified. identified.number ≡ file.entry.number) (λ refusal. refusal.1 ≡ file.entry) }
        ensures list { self.new ≡ with_files (identified_in entities.now self.old.files file.entry.number code.now) self.old }
        ensures refused { OnErr result (self.new ≡ self.old) }
    {
        match self.identify_at(file.number(), entities, code) {
            Ok(()) => Ok(file.into_identified()),
            Err(fault) => Err((fault, file)),
        }
    }

    // Ends a file that is only named, and gives its counts.
    pub(crate) fn withdraw(&mut self, file: NamedFile<'_>) -> Result<Receipt, PlaceFault>
        ensures told { place_refusal result ≡ first_fit withdrawing_rows (file_of self.old.files file.entry.number) }
        ensures counts { IfOk result (λ receipt. receipt ≡ receipt_of (file_of self.old.files file.entry.number)) }
        ensures list { self.new ≡ with_files (withdrawn_in self.old.files file.entry.number) self.old }
        ensures refused { OnErr result (self.new ≡ self.old) }
    {
        self.withdraw_at(file.into_number())
    }

    // Ends a file that is identified, and gives its counts.
    pub(crate) fn close(&mut self, file: IdentifiedFile<'_>) -> Result<Receipt, PlaceFault>
        ensures told { place_refusal result ≡ first_fit closing_rows (file_of self.old.files file.entry.number) }
        ensures counts { IfOk result (λ receipt. receipt ≡ receipt_of (file_of self.old.files file.entry.number)) }
        ensures list { self.new ≡ with_files (closed_in self.old.files file.entry.number) self.old }
        ensures refused { OnErr result (self.new ≡ self.old) }
    {
        self.close_at(file.into_number())
    }
}
