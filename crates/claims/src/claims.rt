// What a line claims, or why it makes no claim.
ghost use Rattle.std.specs.Prelude.{◌≡◌};
ghost use Rattle.claims.specs.Claims.{claiming};
ghost use Rattle.claims.specs.Made.{claim_in};

use crate::claimed::Claim;
use crate::faults::LineFault;
use contract::ContractList;
use life::{Key, Life};
use line::{field_offset, read_line};

// What a line claims, or the first rule that it breaks: of its form, then of the contract list.
pub fn claim(contracts: &ContractList, line: &[u8]) -> Result<Claim, LineFault>
    ensures { claim_in result ≡ claiming contracts.now line.now }
{
    let report = read_line(line)?;
    // A match, and not `map_err`: what the closure answers would have to be told again in the proof.
    let number = match contracts.number_of(&report) {
        Ok(number) => number,
        Err(fault) => {
            return Err(LineFault::List {
                fault,
                at: field_offset(line, fault.field()),
            });
        }
    };
    let key = Key::new(
        report.kind,
        report.id,
        number,
        report.venue,
        report.participant,
        report.side,
    )
    .unwrap();
    let told = Life::new(report.time, report.quantity, report.price).unwrap();
    Ok(Claim {
        key,
        action: report.action,
        told,
    })
}
