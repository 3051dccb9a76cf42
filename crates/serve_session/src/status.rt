// How serving ends.
ghost use Rattle.std.specs.Prelude.{◌≡◌, ◌↔◌, IsTrue};
ghost use Rattle.serve_session.specs.Statuses.{exit_code};

use request_lines::InputError;
use std::fmt;

/// How a call of `serve` ended. Shown as the line on standard error has it, after the program's name: `status_text` of
/// `specs/Statuses.antt`.
///
/// ```
/// let status = Status::BadInput(InputError { line: 3, cause: Cause::WrongFields });
/// assert_eq!(rt; format!(in alloc; "{status}")?.as_str(), "line 3: WrongFields");
/// assert_eq!(rt; status.exit_code(), 3);
/// ```
#[derive(Clone, Copy, Debug, PartialEq, Eq)]
pub enum Status {
    /// The input was read to its end, and the whole text was taken. A text that was checked is legal.
    Done,
    /// The arguments are no form of the program. Nothing was read or written.
    BadWords,
    /// The input is refused at this line: by the grammar, or because the text that is to be checked is missing. Nothing
    /// was written.
    BadInput(InputError),
    /// The input has more than 67,108,864 bytes. Nothing was written.
    TooLong,
    /// The input failed. Nothing was written.
    ReadFault,
    /// The output failed. A start of the text was written.
    WriteFault,
    /// Out of memory. Nothing or a start of the text was written.
    NoMemory,
    /// The checked text is that of no legal run: this is its first wrong line. The whole line of the verdict was
    /// written.
    Illegal(u32),
}

impl Status {
    /// Whether the whole text was taken, and a text that was checked is legal.
    pub fn is_done(&self) -> bool
        ensures { IsTrue result ↔ (self.now ≡ Status.Done) }
    {
        matches!(self, Status::Done)
    }

    /// The exit status of the process.
    pub fn exit_code(&self) -> u8
        ensures { result ≡ exit_code self.now }
    {
        match self {
            Status::Done => 0,
            Status::BadWords => 2,
            Status::BadInput(_) => 3,
            Status::TooLong => 4,
            Status::ReadFault => 5,
            Status::WriteFault => 6,
            Status::NoMemory => 7,
            Status::Illegal(_) => 8,
        }
    }
}

impl fmt::Display for Status {
    ghost use Rattle.std.specs.Prelude.{Some};
    ghost use Rattle.serve_session.specs.Statuses.{status_text};

    ghost output = { λ status. Some (status_text status) };

    fn fmt<W: fmt::Write>(&self, f: &mut fmt::Formatter<W>) -> fmt::Result {
        match self {
            Status::Done => write!(f, "done"),
            Status::BadWords => write!(f, "bad words"),
            Status::BadInput(e) => {
                let line = e.line;
                let cause = e.cause;
                write!(f, "line {line}: {cause}")
            }
            Status::TooLong => write!(f, "input too long"),
            Status::ReadFault => write!(f, "read fault"),
            Status::WriteFault => write!(f, "write fault"),
            Status::NoMemory => write!(f, "no memory"),
            Status::Illegal(line) => write!(f, "wrong line {line}"),
        }
    }
}
