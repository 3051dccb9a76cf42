// The forms of the program.
ghost use Rattle.std.specs.Prelude.{IfOk, MatchOption};
ghost use Rattle.command_words.specs.declared.form.Form.{Form as TheForm};
ghost use Rattle.command_words.specs.Program.{IsForm};

use crate::reading::read_words;
use crate::spelling::is_spelled;
use key_names::{NoMemory, Text};
use std::alloc::Global;

/// What the program is asked to do.
#[derive(Clone, Copy, Debug, PartialEq, Eq)]
pub enum Form {
    /// `run`: runs the session on standard input. With `--slots N` or `--slots=N` each client has N node slots, from 1
    /// to 8,192; without it, one more than it has lines that may make an update.
    Run { slots: Option<u32> },
    /// `run --pool N` or `run --pool=N`: as with `--slots`, and clients hand spare node slots to one another.
    Pool { slots: u32 },
    /// `check`: checks a written text of the session on standard input. `--slots N` or `--slots=N` is as for `run`.
    Check { slots: Option<u32> },
    /// `sample N`: runs the generated session, with N requests of each client, from 1 to 40,000.
    Sample(u32),
}

/// The form of these arguments, which follow the program's name, or None where they are none.
///
/// ```
/// let words = [Text::of(alloc, "run")?, Text::of(alloc, "--slots=8")?];
/// assert_eq!(rt; form_of(alloc, &words)?, Some(Form::Run { slots: Some(8) }));
/// ```
pub fn form_of(alloc: Global, words: &[Text]) -> Result<Option<Form>, NoMemory>
    ensures form { IfOk result (λ found. MatchOption found ((form : TheForm) → ¬ (IsForm words.now form)) (IsForm words.now)) }
{
    match read_words(alloc, words)? {
        Some(form) if is_spelled(alloc, words, form)? => Ok(Some(form)),
        _ => Ok(None),
    }
}
