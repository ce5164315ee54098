// The contracts in the order of adding. Their places are reserved when the list is made, so that adding never wants memory.
use crate::held::HeldContract;
use std::marker::Model;

// Clauses and proofs see it as the list of what its contracts say.
#[derive(Drop)]
pub struct ContractList {
    pub(crate) contracts: Vec<HeldContract>,
}

impl Model for ContractList {
    ghost use Rattle.std.specs.Prelude.{List};
    ghost use Rattle.contract.specs.ContractList.{Contract};

    ghost Value = { List Contract };

    ghost use Rattle.contract.specs.Held.{contracts_of, HasRoom};

    ghost view = { contracts_of };

    ghost invariant = { HasRoom };
}
