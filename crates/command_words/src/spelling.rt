// How a form is written.
ghost use Rattle.std.specs.Prelude.{◌≡◌, ◌<◌, ◌≤◌, ◌↔◌, [], ◌∷◌, ◌++◌, codes, IsTrue, IfOk};
ghost use Rattle.std.specs.Fmt.{decimal};
ghost use Rattle.command_words.specs.Program.{IsForm, most_asked, most_slots};
ghost use Rattle.command_words.specs.Words.{HasOption};

use crate::form::Form;
use key_names::{NoMemory, Text};
use std::alloc::Global;

/// The most requests of each client that `sample` may be asked for.
const MOST_ASKED: u32 = 40_000;

/// The most node slots that `run` or `check` may be asked to give each client.
const MOST_SLOTS: u32 = 8192;

/// Whether the arguments are exactly as the form is written.
pub(crate) fn is_spelled(alloc: Global, words: &[Text], form: Form) -> Result<bool, NoMemory>
    ensures { IfOk result (λ spelled. IsTrue spelled ↔ IsForm words.now form) }
{
    match form {
        Form::Run { slots: None } => Ok(is_alone(words, b"run")),
        Form::Run { slots: Some(n) } => has_option(alloc, words, b"run", "--slots", n),
        Form::Pool { slots } => has_option(alloc, words, b"run", "--pool", slots),
        Form::Check { slots: None } => Ok(is_alone(words, b"check")),
        Form::Check { slots: Some(n) } => has_option(alloc, words, b"check", "--slots", n),
        Form::Sample(n) => is_sample(alloc, words, n),
    }
}

fn is_alone(words: &[Text], verb: &[u8]) -> bool
    ensures { IsTrue result ↔ (words.now ≡ verb.now ∷ []) }
{
    match words {
        [word] => is_word(word, verb),
        _ => false,
    }
}

// Whether the arguments are the verb and this option with this number of slots.
fn has_option(
    alloc: Global,
    words: &[Text],
    verb: &[u8],
    option: &str,
    n: u32,
) -> Result<bool, NoMemory>
    ensures { IfOk result (λ spelled. IsTrue spelled ↔ HasOption verb.now option.now words.now n) }
{
    let number = digits_of(alloc, n)?;
    let joined = joined_of(alloc, option, n)?;
    let spelled = is_triple(words, verb, option.as_bytes(), number.bytes())
        || is_pair(words, verb, joined.bytes());
    Ok(is_granted(n) && spelled)
}

// Whether each client may be given so many node slots.
fn is_granted(n: u32) -> bool
    ensures { IsTrue result ↔ ((0 < n) × (n ≤ most_slots)) }
{
    0 < n && n <= MOST_SLOTS
}

fn is_sample(alloc: Global, words: &[Text], n: u32) -> Result<bool, NoMemory>
    ensures { IfOk result (λ spelled. IsTrue spelled ↔ IsForm words.now (Form.Sample n)) }
{
    let number = digits_of(alloc, n)?;
    Ok(is_asked(n) && is_pair(words, b"sample", number.bytes()))
}

// Whether `sample` may be asked for so many requests.
fn is_asked(n: u32) -> bool
    ensures { IsTrue result ↔ ((0 < n) × (n ≤ most_asked)) }
{
    0 < n && n <= MOST_ASKED
}

// The number in decimal digits.
fn digits_of(alloc: Global, n: u32) -> Result<Text, NoMemory>
    ensures { IfOk result (λ text. text ≡ decimal n) }
{
    match format!(in alloc; "{n}") {
        Ok(text) => Ok(Text::from_string(text)),
        Err(_) => Err(NoMemory),
    }
}

// The option and the number in one argument.
fn joined_of(alloc: Global, option: &str, n: u32) -> Result<Text, NoMemory>
    ensures { IfOk result (λ text. text ≡ option.now ++ codes "=" ++ decimal n) }
{
    match format!(in alloc; "{option}={n}") {
        Ok(text) => Ok(Text::from_string(text)),
        Err(_) => Err(NoMemory),
    }
}

fn is_pair(words: &[Text], first: &[u8], second: &[u8]) -> bool
    ensures { IsTrue result ↔ (words.now ≡ first.now ∷ second.now ∷ []) }
{
    match words {
        [verb, text] => is_word(verb, first) && is_word(text, second),
        _ => false,
    }
}

fn is_triple(words: &[Text], first: &[u8], second: &[u8], third: &[u8]) -> bool
    ensures { IsTrue result ↔ (words.now ≡ first.now ∷ second.now ∷ third.now ∷ []) }
{
    match words {
        [verb, option, text] => {
            is_word(verb, first) && is_word(option, second) && is_word(text, third)
        }
        _ => false,
    }
}

fn is_word(word: &Text, text: &[u8]) -> bool
    ensures { IsTrue result ↔ (word.now ≡ text.now) }
{
    word.bytes() == text
}
