// Answer lines.
ghost use Rattle.std.specs.Prelude.{◌≡◌, ◌≤◌, ◌∷◌, ◌++◌, ◌+◌, length, codes};
ghost use Rattle.std.specs.List.{AllByRecursion};
ghost use Rattle.output.specs.Buffers.{Wrote};
ghost use Rattle.output.specs.Drafts.{Put};
ghost use Rattle.output.specs.Examples.{Stands, examples, ReportStands};
ghost use Rattle.output.specs.Lines.{line_text};

use crate::faults::OutputFault;
use crate::fronts;

// A line that the program answers.
#[derive(Clone, Copy)]
pub enum AnswerLine {
    // a line or a call was accepted
    Accepted,
    // it was refused, with the number, the field and the code of the rule: numbers, since this layer knows no faults
    Refused {
        number: u16,
        field: u8,
        code: Option<&'static [u8]>,
    },
    // the sum of a contract
    Position {
        contract: usize,
        sum: i64,
    },
    // the check word of the register
    CheckWord {
        word: u64,
    },
    // how many lines of a file were judged, accepted and refused: three numbers, since this layer knows no files
    Receipt {
        judged: u32,
        accepted: u32,
        refused: u32,
    },
}

impl AnswerLine {
    // Writes the line to the front of the buffer. By hand, not by `Display`: where the buffer is too short nothing may be written, and a formatter
    // writes what fits.
    pub fn write(&self, out: &mut [u8]) -> Result<usize, OutputFault>
        ensures { Wrote out.old (line_text self.now) result out.new }
    {
        match *self {
            AnswerLine::Accepted => write_parts(out, b"A", b""),
            AnswerLine::Refused {
                number,
                field,
                code,
            } => {
                let front = fronts::refused(number, field);
                write_parts(out, front.as_slice(), code.unwrap_or(b"-"))
            }
            AnswerLine::Position { contract, sum } => {
                let front = fronts::position(contract, sum);
                write_parts(out, front.as_slice(), b"")
            }
            AnswerLine::CheckWord { word } => {
                let front = fronts::check_word(word);
                write_parts(out, front.as_slice(), b"")
            }
            AnswerLine::Receipt {
                judged,
                accepted,
                refused,
            } => {
                let front = fronts::receipt(judged, accepted, refused);
                write_parts(out, front.as_slice(), b"")
            }
        }
    }
}

// Puts a text at `at`, and says where the next goes: a line has three parts, and a writer of its own would be longer than that.
fn put(out: &mut [u8], at: usize, text: &[u8]) -> usize
    requires { at + length text.now ≤ length out.old }
    ensures { Put out.old at text.now result out.new }
{
    let end = at + text.len();
    out[at..end].copy_from_slice(text);
    end
}

// Writes a line of two parts and a line feed.
fn write_parts(out: &mut [u8], front: &[u8], last: &[u8]) -> Result<usize, OutputFault>
    ensures { Wrote out.old (front.now ++ (last.now ++ codes "\n")) result out.new }
{
    if front.len() >= out.len() || last.len() >= out.len() - front.len() {
        return Err(OutputFault::TooShort);
    }
    let at = put(out, 0, front);
    let at = put(out, at, last);
    Ok(put(out, at, b"\n"))
}

// The examples have their texts: proved, and never run.
fn examples_stand()
    ensures lines { AllByRecursion Stands examples }
    ensures report { ReportStands }
{}
