// The list of files, and calls on a file by its number.
ghost use Rattle.std.specs.Prelude.{◌≡◌, ◌+◌, ◌<◌, ◌≤◌, [], length, IfOk, OnOk, OnErr, option_map, slice_get, slice_set};
ghost use Rattle.text.specs.Rows.{first_fit};
ghost use Rattle.calls.specs.FileAnswers.{identify_refusal, place_refusal, take_refusal, receipt_of};
ghost use Rattle.filing.specs.Files.{identifying_rows, withdrawing_rows, closing_rows, taking_rows};
ghost use Rattle.calls.specs.FilesAfter.{counted, file_of, identified_in, withdrawn_in, closed_in};
ghost use Rattle.calls.specs.FilesHeld.{as_file, with_files};

use crate::files::faults::{IdentifyFault, PlaceFault, TakeFault};
use crate::files::held::HeldFile;
use crate::files::list::FileList;
use crate::files::receipt::Receipt;
use crate::files::stage::Stage;
use filing::EntityList;
use std::alloc::{AllocError, Global};

#[tactic(auto, using(crate::proofs::FilePlaces::file_of_read, crate::proofs::FilePlaces::nothing_put))]
impl FileList {
    // A list with no file.
    pub(crate) fn new(heap: Global) -> FileList
        ensures { result.files ≡ [] }
    {
        FileList {
            files: Vec::new(heap),
        }
    }

    // How many files were named.
    pub(crate) fn count(&self) -> usize
        ensures { result ≡ length self.now.files }
    {
        self.files.as_slice().len()
    }

    // Makes places for more files, so that naming them wants no memory. It is refused only where
    // there are too few, and changes nothing then. Places are never given back: `kept` says so of
    // each call that may make some.
    pub(crate) fn reserve(&mut self, more: usize) -> Result<(), AllocError>
        ensures list { self.new.files ≡ self.old.files }
        ensures room { OnOk result (length self.old.files + more ≤ self.new.places) }
        ensures memory { OnErr result (self.old.places < length self.old.files + more) }
        ensures refused { OnErr result (self.new ≡ self.old) }
        ensures kept { self.old.places ≤ self.new.places }
    {
        self.files.reserve(more)
    }

    // The file of a number, if there is one.
    fn file(&self, number: usize) -> Option<HeldFile>
        ensures { option_map as_file result ≡ slice_get self.now.files number }
    {
        self.files.get(number).copied()
    }

    // Puts a file in the place of a number, if there is one.
    fn put(&mut self, number: usize, file: HeldFile)
        ensures { self.new ≡ with_files (slice_set self.old.files number (as_file file)) self.old }
    {
        let Some(held) = self.files.get_mut(number) else {
            return;
        };
        *held = file;
    }

    // Identifies a file by the code of its entity.
    pub(crate) fn identify_at(
        &mut self,
        number: usize,
        entities: &EntityList,
        code: &[u8],
    ) -> Result<(), IdentifyFault>
        ensures told { identify_refusal result ≡ first_fit identifying_rows (entities.now, file_of self.old.files number, code.now) }
        ensures list { self.new ≡ with_files (identified_in entities.now self.old.files number code.now) self.old }
        ensures refused { OnErr result (self.new ≡ self.old) }
    {
        let file = self.file(number).ok_or(IdentifyFault::OutOfPlace)?;
        file.allows_identifying(entities, code)?;
        self.put(number, file.at_stage(Stage::Identified));
        Ok(())
    }

    // Ends a file that is only named, and gives its counts. Written apart from closing: a function
    // over the stage would have the clauses of both, each under its stage, to save three lines.
    pub(crate) fn withdraw_at(&mut self, number: usize) -> Result<Receipt, PlaceFault>
        ensures told { place_refusal result ≡ first_fit withdrawing_rows (file_of self.old.files number) }
        ensures counts { IfOk result (λ receipt. receipt ≡ receipt_of (file_of self.old.files number)) }
        ensures list { self.new ≡ with_files (withdrawn_in self.old.files number) self.old }
        ensures refused { OnErr result (self.new ≡ self.old) }
    {
        let file = self.file(number).ok_or(PlaceFault::OutOfPlace)?;
        file.stands_at(Stage::Named)?;
        self.put(number, file.at_stage(Stage::Ended));
        Ok(file.receipt())
    }

    // Ends a file that is identified, and gives its counts.
    pub(crate) fn close_at(&mut self, number: usize) -> Result<Receipt, PlaceFault>
        ensures told { place_refusal result ≡ first_fit closing_rows (file_of self.old.files number) }
        ensures counts { IfOk result (λ receipt. receipt ≡ receipt_of (file_of self.old.files number)) }
        ensures list { self.new ≡ with_files (closed_in self.old.files number) self.old }
        ensures refused { OnErr result (self.new ≡ self.old) }
    {
        let file = self.file(number).ok_or(PlaceFault::OutOfPlace)?;
        file.stands_at(Stage::Identified)?;
        self.put(number, file.at_stage(Stage::Ended));
        Ok(file.receipt())
    }

    // Whether a file takes a line.
    pub(crate) fn takes(&self, number: usize) -> Result<(), TakeFault>
        ensures { take_refusal result ≡ first_fit taking_rows (file_of self.now.files number) }
    {
        let file = self.file(number).ok_or(TakeFault::OutOfPlace)?;
        file.takes()
    }

    // Counts a line judged in a file, where the file takes one.
    pub(crate) fn count_line(&mut self, number: usize, accepted: bool)
        ensures { self.new ≡ with_files (slice_set self.old.files number (counted accepted (file_of self.old.files number))) self.old }
    {
        if let Some(file) = self.file(number) {
            self.put(number, file.with_line(accepted));
        }
    }
}
