// The types of contracts, and option styles.
ghost use Rattle.std.specs.Prelude.{◌≡◌};
ghost use Rattle.contract.specs.ContractList.{type_form, needs_style};

// The types, as their letters say them: auction, continuous, future, forward, option (alone and on a future, forward, spot or swap), other, spot,
// swap, and swing.
#[derive(Clone, Copy, PartialEq, Eq, Debug)]
pub enum ContractType {
    Au,
    Co,
    Fu,
    Fw,
    Op,
    OpFu,
    OpFw,
    OpSp,
    OpSw,
    Ot,
    Sp,
    Sw,
    Swg,
}

impl ContractType {
    // The type that a text names. It answers Option: a TryFrom would need an error type that says nothing.
    pub fn of(text: &[u8]) -> Option<ContractType>
        ensures { result ≡ type_form text.now }
    {
        match text {
            b"AU" => Some(ContractType::Au),
            b"CO" => Some(ContractType::Co),
            b"FU" => Some(ContractType::Fu),
            b"FW" => Some(ContractType::Fw),
            b"OP" => Some(ContractType::Op),
            b"OP_FU" => Some(ContractType::OpFu),
            b"OP_FW" => Some(ContractType::OpFw),
            b"OP_SP" => Some(ContractType::OpSp),
            b"OP_SW" => Some(ContractType::OpSw),
            b"OT" => Some(ContractType::Ot),
            b"SP" => Some(ContractType::Sp),
            b"SW" => Some(ContractType::Sw),
            b"SWG" => Some(ContractType::Swg),
            _ => None,
        }
    }

    // Whether a contract of the type needs an option style: options do, unless they are on a spot.
    pub(crate) fn needs_style(self) -> bool
        ensures { result ≡ needs_style self }
    {
        matches!(
            self,
            ContractType::Op | ContractType::OpFu | ContractType::OpFw | ContractType::OpSw
        )
    }
}

// An option style: one capital letter, or none where the field is blank. A type of its own, since a field's form is a trait of another crate, as `Option`
// is.
#[derive(Clone, Copy)]
pub struct OptionStyle(pub(crate) Option<u8>);
