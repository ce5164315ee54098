// What is asked of one file, and what becomes of it.
ghost use Rattle.std.specs.Prelude.{◌≡◌};
ghost use Rattle.text.specs.Rows.{first_fit};
ghost use Rattle.text.specs.Texts.{text_of};
ghost use Rattle.filing.specs.Files.{named_file, at_stage, identifying_rows, withdrawing_rows, closing_rows, taking_rows};
ghost use Rattle.calls.specs.declared.files.stage.Stage.TheVariants.{Named, Identified};
ghost use Rattle.calls.specs.FilesAfter.{counted};
ghost use Rattle.calls.specs.FilesHeld.{as_file, stage_of};
ghost use Rattle.calls.specs.FileAnswers.{identify_refusal, place_refusal, take_refusal, receipt_of};

use crate::files::faults::{IdentifyFault, PlaceFault, TakeFault};
use crate::files::held::HeldFile;
use crate::files::receipt::Receipt;
use crate::files::stage::Stage;
use filing::EntityList;
use text::Text;

// The most lines judged in a file.
const MOST_JUDGED: u32 = 1_000_000;

impl HeldFile {
    // A file just named.
    pub(crate) fn named(entity: Text<12>) -> HeldFile
        ensures { as_file result ≡ named_file (text_of entity) }
    {
        HeldFile {
            stage: Stage::Named,
            entity,
            accepted: 0,
            refused: 0,
        }
    }

    // The file at another stage.
    pub(crate) fn at_stage(&self, stage: Stage) -> HeldFile
        ensures { as_file result ≡ at_stage (stage_of stage) (as_file self.now) }
    {
        let mut file = *self;
        file.stage = stage;
        file
    }

    // Its counts.
    pub(crate) fn receipt(&self) -> Receipt
        ensures { result ≡ receipt_of (as_file self.now) }
    {
        Receipt {
            judged: self.accepted + self.refused,
            accepted: self.accepted,
            refused: self.refused,
        }
    }

    // Whether it may be identified by an entity's code.
    pub(crate) fn allows_identifying(
        &self,
        entities: &EntityList,
        code: &[u8],
    ) -> Result<(), IdentifyFault>
        ensures { identify_refusal result ≡ first_fit identifying_rows (entities.now, as_file self.now, code.now) }
    {
        let Stage::Named = self.stage else {
            return Err(IdentifyFault::OutOfPlace);
        };
        if !entities.knows(code) {
            return Err(IdentifyFault::Entity);
        }
        if self.entity.as_slice() != code {
            return Err(IdentifyFault::Entity);
        }
        Ok(())
    }

    // Whether it stands at a stage: withdrawing asks for a file that is only named, closing for an
    // identified one.
    pub(crate) fn stands_at(&self, stage: Stage) -> Result<(), PlaceFault>
        ensures withdrawing { stage ≡ Named → place_refusal result ≡ first_fit withdrawing_rows (as_file self.now) }
        ensures closing { stage ≡ Identified → place_refusal result ≡ first_fit closing_rows (as_file self.now) }
    {
        if self.stage == stage {
            Ok(())
        } else {
            Err(PlaceFault::OutOfPlace)
        }
    }

    // Whether it takes a line.
    pub(crate) fn takes(&self) -> Result<(), TakeFault>
        ensures { take_refusal result ≡ first_fit taking_rows (as_file self.now) }
    {
        let Stage::Identified = self.stage else {
            return Err(TakeFault::OutOfPlace);
        };
        if self.accepted + self.refused >= MOST_JUDGED {
            return Err(TakeFault::Spent);
        }
        Ok(())
    }

    // The file with one more line judged, where it takes one.
    pub(crate) fn with_line(&self, accepted: bool) -> HeldFile
        ensures { as_file result ≡ counted accepted (as_file self.now) }
    {
        let mut file = *self;
        match (self.takes(), accepted) {
            (Ok(()), true) => file.accepted += 1,
            (Ok(()), false) => file.refused += 1,
            (Err(_), _) => {}
        }
        file
    }
}
