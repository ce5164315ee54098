// Adding reporting entities, and asking for them.
ghost use Rattle.std.specs.Prelude.{◌≡◌, [], IfOk};
ghost use Rattle.text.specs.Bytes.{among};
ghost use Rattle.text.specs.Forms.{code_form};
ghost use Rattle.text.specs.Rows.{first_fit};
ghost use Rattle.text.specs.Texts.{text_in};
ghost use Rattle.filing.specs.Entities.{CodesWithin, entity_rows, added};
ghost use Rattle.filing.specs.Faults.{entity_number as number_of, refused_by};

use crate::entity_list::EntityList;
use std::alloc::{AllocError, Global};
use text::{Text, is_among, is_code};

// Why an entity is not added.
#[derive(Clone, Copy, PartialEq, Eq, Debug)]
pub enum EntityFault {
    // its code lacks its form
    Form,
    // it is known already
    Known,
    // as many are known as may be
    Full,
}

impl EntityFault {
    // The published number. No field is named.
    pub fn number(&self) -> u8
        ensures { result ≡ number_of self.now }
    {
        match *self {
            EntityFault::Form => 61,
            EntityFault::Known => 62,
            EntityFault::Full => 63,
        }
    }
}

// The most entities.
const MOST_ENTITIES: usize = 32;

// A text that has the form of an ACER code.
fn code_of(text: &[u8]) -> Option<Text<12>>
    ensures { text_in result ≡ code_form text.now }
{
    if is_code(text) { Text::new(text) } else { None }
}

impl EntityList {
    // A list with no entity, and with room for all that it may have.
    pub fn new(heap: Global) -> Result<EntityList, AllocError>
        ensures { IfOk result (λ list. list ≡ []) }
    {
        let codes = Vec::with_capacity(heap, MOST_ENTITIES)?;
        Ok(EntityList { codes })
    }

    // Adds an entity by its ACER code.
    pub fn add(&mut self, code: &[u8]) -> Result<(), EntityFault>
        ensures told { refused_by result ≡ first_fit entity_rows (self.old, code.now) }
        ensures list { self.new ≡ added self.old code.now }
        ensures limits { CodesWithin self.new }
    {
        let _ = &self.codes;
        let text = code_of(code).ok_or(EntityFault::Form)?;
        if self.knows(code) {
            return Err(EntityFault::Known);
        }
        if self.codes.len() >= MOST_ENTITIES {
            return Err(EntityFault::Full);
        }
        self.codes.push_reserved(text);
        Ok(())
    }

    // Whether an entity is known.
    pub fn knows(&self, code: &[u8]) -> bool
        ensures known { result ≡ among self.now code.now }
        ensures limits { CodesWithin self.now }
    {
        is_among(self.codes.as_slice(), code)
    }
}
