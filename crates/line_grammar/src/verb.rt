// The verbs of lines.
ghost use Rattle.std.specs.Prelude.{◌≡◌};
ghost use Rattle.line_grammar.specs.Line.{verb_of};

use crate::parameter::Version;

/// When a put is made: whether or not its key is there, or only where it is not.
#[derive(Clone, Copy, Debug, PartialEq, Eq)]
pub enum PutWhen {
    Always,
    IfAbsent,
}

/// The first field of a line.
#[derive(Clone, Copy, PartialEq, Eq)]
pub(crate) enum Verb {
    Client,
    Put(PutWhen),
    Delete,
    Head,
    List(Version),
    Next,
}

impl Verb {
    /// The verb of this text, in upper case.
    pub(crate) fn of(text: &str) -> Option<Verb>
        ensures { result ≡ verb_of text.now }
    {
        // They are compared one after another: those that most lines have stand first.
        match text {
            "HEAD" => Some(Verb::Head),
            "PUT" => Some(Verb::Put(PutWhen::Always)),
            "LIST" => Some(Verb::List(Version::V2)),
            "DELETE" => Some(Verb::Delete),
            "NEXT" => Some(Verb::Next),
            "PUTNEW" => Some(Verb::Put(PutWhen::IfAbsent)),
            "LISTV1" => Some(Verb::List(Version::V1)),
            "CLIENT" => Some(Verb::Client),
            _ => None,
        }
    }
}
