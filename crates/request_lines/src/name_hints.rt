// Where the names of the next lines may have been kept.
ghost use Rattle.std.specs.Prelude.{◌≡◌, Some, IfSome};
ghost use Rattle.request_lines.specs.Interned.{IsKnownAs};
ghost use Rattle.request_lines.specs.NameHints.{IsKeptAs, IsRightHint};

use crate::interner::Interner;
use crate::known::hash_of;
use key_names::Text;
use line_grammar::Command;

// The names of this many lines are looked for before the first of them is kept. Each of them, and its place in the
// table, may lie anywhere in memory, and the waits for them then overlap.
const AHEAD: usize = 16;

/// The hash of a line's name, the number that it may have been kept under, and how many bytes the name of this number
/// has. Contracts rely on none of it: a wrong hint only costs time.
#[derive(Clone, Copy)]
pub(crate) struct NameHint {
    hash: u64,
    number: Option<usize>,
    len: usize,
}

impl NameHint {
    // The hint for a line without a name.
    fn none() -> NameHint {
        NameHint {
            hash: 0,
            number: None,
            len: 0,
        }
    }

    /// The hint for a line whose name has not been looked for.
    pub(crate) fn of(command: &Command) -> NameHint {
        let mut hint = NameHint::none();
        if let Some(name) = name_of(command) {
            hint.hash = hash_of(name);
        }
        hint
    }

    /// The hash of the name.
    pub(crate) fn hash(&self) -> u64
        ensures { result ≡ self.now.hash }
    {
        self.hash
    }

    /// The number, if the name with this number is this one and has so many bytes.
    pub(crate) fn number_of(&self, names: &[Text], name: &Text) -> Option<usize>
        ensures known { IfSome result (IsKnownAs names.now names.now name.now) }
        ensures right { IsRightHint names.now name.now self.now → result ≡ self.now.number }
    {
        let number = self.number?;
        if self.len == name.bytes().len() {
            return if_kept_as(names, name, number);
        }
        None
    }
}

// The name of the object that a line is about, where it is about one.
fn name_of(command: &Command) -> Option<&Text> {
    match command {
        Command::Put { name, .. } | Command::Delete { name } | Command::Head { name } => Some(name),
        Command::Client | Command::List(_) | Command::ListV1(_) | Command::Next => None,
    }
}

/// The number, if the name with this number is this one.
pub(crate) fn if_kept_as(names: &[Text], name: &Text, number: usize) -> Option<usize>
    ensures known { IfSome result (IsKnownAs names.now names.now name.now) }
    ensures right { IsKeptAs names.now name.now number → result ≡ Some number }
{
    let kept = names.get(number)?;
    if kept.as_str() == name.as_str() {
        return Some(number);
    }
    None
}

/// The hints for some lines that follow one another.
#[derive(Clone, Copy)]
pub(crate) struct NameHints {
    hints: [NameHint; AHEAD],
}

impl NameHints {
    /// Before the first line.
    pub(crate) fn none() -> NameHints {
        NameHints {
            hints: [NameHint::none(); AHEAD],
        }
    }

    /// The hint for the line at this place. The places are those from 0 on, one after another.
    pub(crate) fn at(
        &mut self,
        names: &Interner,
        commands: &[Option<Command>],
        place: usize,
    ) -> NameHint {
        if place % AHEAD == 0 {
            self.look(names, commands, place);
        }
        self.hints[place % AHEAD]
    }

    // Looks for the names of the lines from this place on. A step is taken for all of them before the next one is taken
    // for any: what is loaded in one step is where the next one loads from.
    fn look(&mut self, names: &Interner, commands: &[Option<Command>], first: usize) {
        for ahead in 0..AHEAD {
            self.hints[ahead] = match commands.get(first.saturating_add(ahead)) {
                Some(Some(command)) => NameHint::of(command),
                _ => NameHint::none(),
            };
        }
        for ahead in 0..AHEAD {
            self.hints[ahead].number = names.number_of(self.hints[ahead].hash);
        }
        for ahead in 0..AHEAD {
            if let Some(number) = self.hints[ahead].number {
                self.hints[ahead].len = names.len_of(number);
            }
        }
    }
}
