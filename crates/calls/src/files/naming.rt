// Naming files.
ghost use Rattle.std.specs.Prelude.{◌≡◌, ◌≤◌, false, [], length, IfOk, OnErr, if◌then◌else◌, Some, None, MatchResult};
ghost use Rattle.text.specs.Bytes.{value};
ghost use Rattle.text.specs.Rows.{first_fit};
ghost use Rattle.text.specs.Texts.{text_of};
ghost use Rattle.filing.specs.Faults.{name_number};
ghost use Rattle.filing.specs.Names.{name_form, naming_rows};
ghost use Rattle.calls.specs.FileAnswers.{name_refusal, had_memory};
ghost use Rattle.calls.specs.FilesAfter.{named_in};

use crate::files::faults::NamingError;
use crate::files::held::HeldFile;
use crate::files::list::FileList;
use crate::files::token::NamedFile;
use filing::{NameFault, read_name};
use text::Text;

// The entity code of a name.
fn entity_of(name: &[u8]) -> Result<Text<12>, NameFault>
    ensures { MatchResult result (λ entity. (first_fit naming_rows name.now ≡ None) × (text_of entity ≡ value [] (name_form name.now))) (λ fault. first_fit naming_rows name.now ≡ Some (name_number fault, 0)) }
{
    let code = read_name(name)?;
    Text::new(code.text).ok_or(NameFault::Form)
}

impl FileList {
    // Names a file: its number, which is how many files there were before. A refusal changes
    // nothing, nor does want of memory. A name that lacks its form is refused whatever memory there
    // is, and there is no want of it where a place is reserved.
    pub(crate) fn name_next(&mut self, name: &[u8]) -> Result<usize, NamingError>
        ensures told { name_refusal result ≡ (if had_memory result then first_fit naming_rows name.now else None) }
        ensures number { IfOk result (λ n. n ≡ length self.old.files) }
        ensures list { self.new.files ≡ (if had_memory result then named_in self.old.files name.now else self.old.files) }
        ensures memory { had_memory result ≡ false → self.old.places ≤ length self.old.files }
        ensures form_first { had_memory result ≡ false → first_fit naming_rows name.now ≡ None }
        ensures refused { OnErr result (self.new ≡ self.old) }
        ensures kept { self.old.places ≤ self.new.places }
    {
        let entity = entity_of(name)?;
        self.files.reserve(1)?;
        let number = self.files.len();
        self.files.push_reserved(HeldFile::named(entity));
        Ok(number)
    }

    // Names a file, and gives its token.
    pub(crate) fn name<'id>(&mut self, name: &[u8]) -> Result<NamedFile<'id>, NamingError>
        ensures told { name_refusal result ≡ (if had_memory result then first_fit naming_rows name.now else None) }
        ensures number { IfOk result (λ file. file.number ≡ length self.old.files) }
        ensures list { self.new.files ≡ (if had_memory result then named_in self.old.files name.now else self.old.files) }
        ensures memory { had_memory result ≡ false → self.old.places ≤ length self.old.files }
        ensures form_first { had_memory result ≡ false → first_fit naming_rows name.now ≡ None }
        ensures refused { OnErr result (self.new ≡ self.old) }
        ensures kept { self.old.places ≤ self.new.places }
    {
        let number = self.name_next(name)?;
        Ok(NamedFile::new(number))
    }
}
