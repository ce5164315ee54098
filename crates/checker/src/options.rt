// The options of the program.
use commands::{SLOTS, SlotsFault, slots_of};

#[derive(Clone, Copy)]
pub(crate) struct Options {
    // how many slots the store has
    pub slots: usize,
    // whether each refusal is explained on standard error
    pub explains: bool,
}

impl Options {
    // The options before any word is read.
    pub(crate) fn usual() -> Options {
        Options {
            slots: SLOTS,
            explains: false,
        }
    }

    // One word more.
    pub(crate) fn with(self, word: &str) -> Result<Options, SlotsFault> {
        let mut options = self;
        if word == "--explain" {
            options.explains = true;
        } else {
            options.slots = slots_of(word)?;
        }
        Ok(options)
    }
}
