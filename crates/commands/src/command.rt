// A line of input as a command.
ghost use Rattle.std.specs.Prelude.{◌≡◌, Some, IfOk};
ghost use Rattle.text.specs.Rows.{first_fit};
ghost use Rattle.commands.specs.Commands.{command_number, refusal_in, command_rows, command_parts, command_form};

// The most bytes of a line of input: a letter, a semicolon and a report line.
const LONGEST: usize = 514;

// What a line of input asks for; a text is what follows the semicolon.
#[derive(Clone, Copy)]
pub enum Command<'a> {
    // `R;` and an entity's code
    AddEntity(&'a [u8]),
    // `K;` and a contract
    AddContract(&'a [u8]),
    // `F;` and a file's name
    NameFile(&'a [u8]),
    // `I;` and an entity's code
    Identify(&'a [u8]),
    // `P;` and a report line
    Judge(&'a [u8]),
    // `T`
    Positions,
    // `W`
    CheckWord,
    // `X`
    EndFile,
}

// Why a line of input is no command.
#[derive(Clone, Copy, PartialEq, Eq, Debug)]
pub enum CommandFault {
    // it is too long
    Length,
    // it begins with no command, or has more or less than its command
    Unknown,
}

impl CommandFault {
    // The published number. No field is named.
    pub fn number(&self) -> u8
        ensures { result ≡ command_number self.now }
    {
        match *self {
            CommandFault::Length => 1,
            CommandFault::Unknown => 66,
        }
    }
}

impl<'a> Command<'a> {
    // The command of a line, which is without its line feed.
    pub fn read(line: &'a [u8]) -> Result<Command<'a>, CommandFault>
        ensures refused { refusal_in result ≡ first_fit command_rows line.now }
        ensures command { IfOk result (λ command. Some (command_parts command) ≡ command_form line.now) }
    {
        if line.len() > LONGEST {
            return Err(CommandFault::Length);
        }
        match line {
            [b'R', b';', code @ ..] => Ok(Command::AddEntity(code)),
            [b'K', b';', text @ ..] => Ok(Command::AddContract(text)),
            [b'F', b';', name @ ..] => Ok(Command::NameFile(name)),
            [b'I', b';', code @ ..] => Ok(Command::Identify(code)),
            [b'P', b';', line @ ..] => Ok(Command::Judge(line)),
            [b'T'] => Ok(Command::Positions),
            [b'W'] => Ok(Command::CheckWord),
            [b'X'] => Ok(Command::EndFile),
            _ => Err(CommandFault::Unknown),
        }
    }
}
