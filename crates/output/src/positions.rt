// The position report.
ghost use Rattle.std.specs.Prelude.{◌≡◌, length, nat_le};
ghost use Rattle.output.specs.Buffers.{Wrote};
ghost use Rattle.output.specs.Positions.{position_text, positions_text};

use crate::faults::OutputFault;
use crate::fronts;
use crate::lines::AnswerLine;

// Writes a line for each sum other than zero, where the sum at index k is that of contract k.
pub fn write_positions(out: &mut [u8], sums: &[i64]) -> Result<usize, OutputFault>
    ensures { Wrote out.old (positions_text sums.now) result out.new }
{
    if !positions_fit(out.len(), sums) {
        return Err(OutputFault::TooShort);
    }
    let mut at = 0;
    for (contract, sum) in sums.iter().enumerate() {
        at += write_position(&mut out[at..], contract, *sum)?;
    }
    Ok(at)
}

// Whether there is room for the lines of all sums. What is left of the room is counted down, since a sum of lengths could be too large.
fn positions_fit(room: usize, sums: &[i64]) -> bool
    ensures { result ≡ nat_le (length (positions_text sums.now)) room }
{
    let mut left = room;
    for (contract, sum) in sums.iter().enumerate() {
        let n = position_length(contract, *sum);
        if n > left {
            return false;
        }
        left -= n;
    }
    true
}

// How many bytes are written for a sum.
fn position_length(contract: usize, sum: i64) -> usize
    ensures { result ≡ length (position_text contract sum) }
{
    if sum == 0 {
        return 0;
    }

    fronts::position(contract, sum).len() + 1
}

// Writes the line of a sum, and for zero nothing.
fn write_position(out: &mut [u8], contract: usize, sum: i64) -> Result<usize, OutputFault>
    ensures { Wrote out.old (position_text contract sum) result out.new }
{
    if sum == 0 {
        return Ok(0);
    }
    AnswerLine::Position { contract, sum }.write(out)
}
