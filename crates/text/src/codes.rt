// Ids, venues and ACER codes: tests of a text's form.
ghost use Rattle.std.specs.Prelude.{◌≡◌};
ghost use Rattle.text.specs.Bytes.{provided};
ghost use Rattle.text.specs.Forms.{id_form, venue_form, code_form};

use crate::classes::{Capitals, CapitalsOrDigits, IdBytes, all_of};

// From `least` to `most` id bytes.
pub fn is_id(text: &[u8], least: usize, most: usize) -> bool
    ensures { provided result text.now ≡ id_form least most text.now }
{
    least <= text.len() && text.len() <= most && all_of::<IdBytes>(text)
}

// Four capital letters or digits.
pub fn is_venue(text: &[u8]) -> bool
    ensures { provided result text.now ≡ venue_form text.now }
{
    text.len() == 4 && all_of::<CapitalsOrDigits>(text)
}

// An ACER code: nine capital letters or digits, a dot and two capital letters.
#[tactic(auto, unfolding(crate::specs::Forms::code_form))]
pub fn is_code(text: &[u8]) -> bool
    ensures { provided result text.now ≡ code_form text.now }
{
    text.len() == 12
        && all_of::<CapitalsOrDigits>(&text[..9])
        && text[9] == b'.'
        && all_of::<Capitals>(&text[10..])
}
