// A file as the list holds it: where it stands, the entity code of its name, and its lines accepted
// and refused, at most a million in all.
ghost use Rattle.std.specs.Prelude.{◌+◌, ◌≤◌};

use crate::files::stage::Stage;
use text::Text;

#[derive(Clone, Copy)]
pub(crate) struct HeldFile {
    pub(crate) stage: Stage,
    pub(crate) entity: Text<12>,
    pub(crate) accepted: u32,
    pub(crate) refused: u32,
    ghost within: { accepted + refused ≤ 1000000 },
}
