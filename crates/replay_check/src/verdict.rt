/// What a written text is to a session.
#[derive(Clone, Copy, Debug, PartialEq, Eq)]
pub enum Verdict {
    /// The text is that of a legal run of the session.
    Legal,
    /// It is not: this is its first wrong line, counted from 1, as `specs/WrongLine.antt` says.
    Wrong { line: u32 },
}
