// The reporting entities that are known.
ghost use Rattle.std.specs.Prelude.{◌≤◌, List, vec_capacity, vec_items};
ghost use Rattle.text.specs.Bytes.{Bytes};
ghost use Rattle.text.specs.Texts.{texts_of};

use std::marker::Model;
use text::Text;

// Their places are reserved when the list is made, so that adding never wants memory.
#[derive(Drop)]
pub struct EntityList {
    pub(crate) codes: Vec<Text<12>>,
}

// Clauses see their ACER codes, in the order of adding.
impl Model for EntityList {
    ghost Value = { List Bytes };

    ghost view = { λ list. texts_of (vec_items list.codes) };

    ghost invariant = { λ list. 32 ≤ vec_capacity list.codes };
}
