// A contract as the list holds it.
ghost use Rattle.std.specs.Prelude.{◌≤◌};
ghost use Rattle.arrayvec.specs.ArrayVec.{array_vec_len};

use crate::types::ContractType;
use arrayvec::ArrayVec;
use text::Text;

// At most eight index names. Their places are part of it, so that adding a contract never wants memory.
#[derive(Drop)]
pub struct NameList {
    pub(crate) texts: ArrayVec<Text<32>, 8>,
    ghost few: { array_vec_len texts ≤ 8 },
}

#[derive(Drop)]
pub struct HeldContract {
    pub(crate) id: Text<32>,
    pub(crate) kind: ContractType,
    // its letter, or none where it is blank
    pub(crate) style: Option<u8>,
    pub(crate) names: NameList,
}
