// Answers, gathered in a buffer and written out when the next does not fit.
ghost use Rattle.std.specs.Prelude.{◌≡◌, ◌≤◌, length};
ghost use Rattle.output.specs.Lines.{line_text};
ghost use Rattle.session.specs.Refusals.{told_text};

use crate::explain::Explanation;
use crate::file_in_hand::Told;
use crate::reply::Reply;
use calls::{Given, Receipt};
use output::{AnswerLine, write_positions};
use std::alloc::{AllocError, Global};
use std::io;
use std::io::Write;

// The bytes that are gathered before they are written out. The longest answer, a position report of 64 lines, has fewer.
const ROOM: usize = 65536;

#[derive(Drop)]
pub(crate) struct Printer {
    rt: HostRuntime,
    buffer: Vec<u8>,
    filled: usize,
    // how many lines were answered
    answered: usize,
    explains: bool,
    ghost within: { filled ≤ length buffer.items },
}

// The line that tells the answer to a call, or its refusal.
fn answer_line(told: Told) -> AnswerLine
    ensures { line_text result ≡ told_text told }
{
    match told {
        Ok(Given::Receipt(receipt)) => {
            let Receipt {
                judged,
                accepted,
                refused,
            } = receipt;
            AnswerLine::Receipt {
                judged,
                accepted,
                refused,
            }
        }
        Ok(_) => AnswerLine::Accepted,
        Err(refusal) => refusal.line(),
    }
}

impl Printer {
    pub(crate) fn new(rt: HostRuntime, explains: bool) -> Result<Printer, AllocError> {
        let buffer = vec![in rt.alloc(); 0; ROOM]?;
        Ok(Printer {
            rt,
            buffer,
            filled: 0,
            answered: 0,
            explains,
        })
    }

    // Writes out what is gathered.
    pub(crate) fn flush(&mut self) -> io::Result<()> {
        let filled = self.filled;
        self.filled = 0;
        self.rt.stdout().write_all(&self.buffer[..filled])
    }

    // Gathers a line, after writing out what is gathered where it does not fit.
    fn line(&mut self, line: &AnswerLine) -> io::Result<()> {
        if let Ok(n) = line.write(&mut self.buffer[self.filled..]) {
            self.filled += n;
            return Ok(());
        }
        self.flush()?;
        if let Ok(n) = line.write(&mut self.buffer) {
            self.filled = n;
        }
        Ok(())
    }

    fn positions(&mut self, sums: &[i64]) -> io::Result<()> {
        if let Ok(n) = write_positions(&mut self.buffer[self.filled..], sums) {
            self.filled += n;
            return Ok(());
        }
        self.flush()?;
        if let Ok(n) = write_positions(&mut self.buffer, sums) {
            self.filled = n;
        }
        Ok(())
    }

    // What is told of a call.
    pub(crate) fn told(&mut self, told: Told) -> io::Result<()> {
        self.line(&answer_line(told))
    }

    // The reply to the next line of input; and on standard error why it is refused, where that is wanted.
    pub(crate) fn reply(&mut self, line: &[u8], reply: &Reply) -> io::Result<()> {
        self.answered = self.answered.saturating_add(1);
        match reply {
            Reply::Positions(sums) => return self.positions(sums),
            Reply::CheckWord(word) => return self.line(&AnswerLine::CheckWord { word: *word }),
            Reply::Told(told) => self.told(*told)?,
        }
        if let Reply::Told(Err(refusal)) = *reply
            && self.explains
        {
            let explanation = Explanation {
                line_number: self.answered,
                line,
                refusal,
            };
            eprintln!(self.rt; "{explanation}")?;
        }
        Ok(())
    }
}
