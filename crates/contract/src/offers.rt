// The text of a contract: four fields.
ghost use Rattle.std.specs.Prelude.{◌≡◌, length};
ghost use Rattle.text.specs.Rows.{fields, settled, form_rows};
ghost use Rattle.contract.specs.ContractList.{type_form, contract_forms, text_rows, offered};
ghost use Rattle.contract.specs.Held.{contract_in};
ghost use Rattle.contract.specs.Styles.{style_said};

use crate::held::{HeldContract, NameList};
use crate::types::{ContractType, OptionStyle};
use line::{FieldForm, ReadFault, Reader, field_count};
use text::Text;

impl FieldForm for ContractType {
    ghost form = { type_form };

    fn said_by(text: &[u8]) -> Option<ContractType> {
        ContractType::of(text)
    }
}

impl FieldForm for OptionStyle {
    ghost form = { style_said };

    fn said_by(text: &[u8]) -> Option<OptionStyle> {
        match text {
            [] => Some(OptionStyle(None)),
            [b] if b.is_ascii_uppercase() => Some(OptionStyle(Some(*b))),
            _ => None,
        }
    }
}

// The fields of a contract's text.
const FIELDS: usize = 4;

// The fields from the left: the first that lacks its form refuses the text.
fn read_fields(text: &[u8]) -> Result<HeldContract, ReadFault>
    requires { length (fields text.now) ≡ 4 }
    ensures { contract_in result ≡ settled (form_rows (λ f. 51) 1 contract_forms) text.now (offered text.now) }
{
    let mut reader = Reader::new(text);
    let id = reader.id(1, 32)?;
    let kind = reader.value::<ContractType>()?;
    let style = reader.value::<OptionStyle>()?;
    let names = reader.names()?;
    Ok(HeldContract {
        id: Text::new(id.bytes()).unwrap(),
        kind,
        style: style.0,
        names: NameList::of(names.names()),
    })
}

// The contract that a text says, or why it says none.
pub(crate) fn read_contract(text: &[u8]) -> Result<HeldContract, ReadFault>
    ensures { contract_in result ≡ settled text_rows text.now (offered text.now) }
{
    if field_count(text) != FIELDS {
        return Err(ReadFault::Fields);
    }
    read_fields(text)
}
