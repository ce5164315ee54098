// A line of the input as a step.
use text::time_of;

// One of the two hands that hold the tokens of files.
#[derive(Clone, Copy, PartialEq, Eq)]
pub(crate) enum Hand {
    First,
    Second,
}

// What is done with the file of a hand; a text is what follows the semicolon.
#[derive(Clone, Copy)]
pub(crate) enum FileStep<'a> {
    Name(&'a [u8]),
    Identify(&'a [u8]),
    Judge(&'a [u8]),
    End,
}

#[derive(Clone, Copy)]
pub(crate) enum Step<'a> {
    AddEntity(&'a [u8]),
    AddContract(&'a [u8]),
    OfFile(Hand, FileStep<'a>),
    LookUp(&'a [u8]),
    Position(u8),
    Report(usize),
}

impl<'a> Step<'a> {
    pub(crate) fn of(line: &'a [u8]) -> Option<Step<'a>> {
        match line {
            [b'R', b';', code @ ..] => Some(Step::AddEntity(code)),
            [b'K', b';', text @ ..] => Some(Step::AddContract(text)),
            [b'L', b';', report @ ..] => Some(Step::LookUp(report)),
            [b'T', b';', number @ ..] => {
                let number = u8::try_from(time_of(number)?).ok()?;
                Some(Step::Position(number))
            }
            [b'B', b';', room @ ..] => Some(Step::Report(time_of(room)? as usize)),
            [letter, b'1', rest @ ..] => {
                let step = FileStep::of(*letter, rest)?;
                Some(Step::OfFile(Hand::First, step))
            }
            [letter, b'2', rest @ ..] => {
                let step = FileStep::of(*letter, rest)?;
                Some(Step::OfFile(Hand::Second, step))
            }
            _ => None,
        }
    }
}

impl<'a> FileStep<'a> {
    fn of(letter: u8, rest: &'a [u8]) -> Option<FileStep<'a>> {
        match (letter, rest) {
            (b'F', [b';', name @ ..]) => Some(FileStep::Name(name)),
            (b'I', [b';', code @ ..]) => Some(FileStep::Identify(code)),
            (b'P', [b';', report @ ..]) => Some(FileStep::Judge(report)),
            (b'X', []) => Some(FileStep::End),
            _ => None,
        }
    }
}

// How many slots a line asks for that begins with a new checker.
pub(crate) fn slots_asked(line: &[u8]) -> Option<usize> {
    match line {
        [b'N', b';', slots @ ..] => time_of(slots).map(|n| n as usize),
        _ => None,
    }
}
