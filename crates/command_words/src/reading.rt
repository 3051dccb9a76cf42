// What clap reads of the arguments.
ghost use Rattle.std.specs.Prelude.{◌≡◌, ◌<◌, ◌≤◌, ◌^◌, ℕ, List, true, map, codes, false, Some, None, IfOk, MatchOption};
ghost use Rattle.std.specs.Fmt.{decimal};
ghost use Rattle.std.specs.Option.{option_map};
ghost use Rattle.clap.specs.declared.builder.command.Command.TheViews.{out-Command};
ghost use Rattle.clap.specs.Words.{app_of, subcommand_of, subcommand_rows_of, takes};
ghost use Rattle.command_words.specs.declared.form.Form.{Form as TheForm};
ghost use Rattle.command_words.specs.Program as spec;
ghost use Rattle.command_words.specs.Program.{read_of, IsForm, most_asked, most_slots};

use crate::form::Form;
use clap::error::ErrorKind;
use clap::{Arg, ArgMatches, Command};
use key_names::{NoMemory, Text};
use std::alloc::{AllocError, Global};

/// The form that clap reads in the arguments. If they are a form, it reads that one; it may read one in other
/// arguments too.
pub(crate) fn read_words(alloc: Global, words: &[Text]) -> Result<Option<Form>, NoMemory>
    ensures { IfOk result (λ read. (form : TheForm) → IsForm words.now form → read ≡ Some form) }
{
    let texts = texts_of(alloc, words)?;
    match matches_of(alloc, texts.as_slice())? {
        Some(matches) => Ok(form_in(&matches)),
        None => Ok(None),
    }
}

fn texts_of<'a>(alloc: Global, words: &'a [Text]) -> Result<Vec<&'a str>, NoMemory>
    ensures { IfOk result (λ texts. map (λ s. s.now) texts.items ≡ words.now) }
{
    let mut texts = Vec::new(alloc);
    for word in words {
        texts.push(word.as_str())?;
    }
    Ok(texts)
}

// The matches of the arguments, or None where clap refuses them.
fn matches_of<'a>(alloc: Global, words: &'a [&'a str]) -> Result<Option<ArgMatches<'a>>, NoMemory>
    ensures { IfOk result (λ found. MatchOption found
        (¬ (takes spec.program (map (λ s. s.now) words.now) ≡ true))
        (λ matches. subcommand_rows_of matches ≡ subcommand_of spec.program (map (λ s. s.now) words.now))) }
{
    match program(alloc)?.try_get_matches_from(words) {
        Ok(matches) => Ok(Some(matches)),
        Err(error) => {
            if error.kind() == ErrorKind::OutOfMemory {
                return Err(NoMemory);
            }
            Ok(None)
        }
    }
}

// The command, with `run`, `check` and `sample`.
fn program<'a>(alloc: Global) -> Result<Command<'a>, AllocError>
    ensures { IfOk result (λ command. app_of command ≡ spec.program) }
{
    let bare = Command::new(alloc, "bucketidx").no_binary_name(true);
    let Ok(run) = run_command(alloc) else {
        drop(bare);
        return Err(AllocError);
    };
    let with_run = bare.subcommand(run)?;
    let Ok(check) = check_command(alloc) else {
        drop(with_run);
        return Err(AllocError);
    };
    let with_check = with_run.subcommand(check)?;
    let Ok(sample) = sample_command(alloc) else {
        drop(with_check);
        return Err(AllocError);
    };
    with_check.subcommand(sample)
}

// `run`, whose number is the value of one of two options.
fn run_command<'a>(alloc: Global) -> Result<Command<'a>, AllocError>
    ensures app { IfOk result (λ command. app_of command ≡ spec.run_app) }
    ensures local { IfOk result (λ command. (out-Command command).has_globals ≡ false) }
{
    Command::new(alloc, "run")
        .arg(Arg::new(alloc, "number").long("slots"))?
        .arg(Arg::new(alloc, "pool").long("pool"))
}

// `check`, whose number is the value of an option.
fn check_command<'a>(alloc: Global) -> Result<Command<'a>, AllocError>
    ensures app { IfOk result (λ command. app_of command ≡ spec.check_app) }
    ensures local { IfOk result (λ command. (out-Command command).has_globals ≡ false) }
{
    Command::new(alloc, "check").arg(Arg::new(alloc, "number").long("slots"))
}

// `sample` with its number.
fn sample_command<'a>(alloc: Global) -> Result<Command<'a>, AllocError>
    ensures app { IfOk result (λ command. app_of command ≡ spec.sample_app) }
    ensures local { IfOk result (λ command. (out-Command command).has_globals ≡ false) }
{
    Command::new(alloc, "sample").arg(Arg::new(alloc, "number").required(true))
}

fn form_in(matches: &ArgMatches) -> Option<Form>
    ensures run { read_of (subcommand_rows_of matches.now) ≡ Some (codes "run", None, None) → result ≡ Some (Form.Run None) }
    ensures slots { (n : ℕ) → read_of (subcommand_rows_of matches.now) ≡ Some (codes "run", Some (decimal n), None) → n ≤ most_slots → result ≡ Some (Form.Run (Some n)) }
    ensures pool { (n : ℕ) → read_of (subcommand_rows_of matches.now) ≡ Some (codes "run", None, Some (decimal n)) → n ≤ most_slots → result ≡ Some (Form.Pool n) }
    ensures check { read_of (subcommand_rows_of matches.now) ≡ Some (codes "check", None, None) → result ≡ Some (Form.Check None) }
    ensures check_slots { (n : ℕ) → read_of (subcommand_rows_of matches.now) ≡ Some (codes "check", Some (decimal n), None) → n ≤ most_slots → result ≡ Some (Form.Check (Some n)) }
    ensures sample { (n : ℕ) → read_of (subcommand_rows_of matches.now) ≡ Some (codes "sample", Some (decimal n), None) → n ≤ most_asked → result ≡ Some (Form.Sample n) }
{
    match matches.subcommand() {
        Some((name, inner)) => {
            let number = inner.get_str("number");
            let pool = inner.get_str("pool");
            form_named(name, number, pool)
        }
        None => None,
    }
}

fn form_named(name: &str, number: Option<&str>, pool: Option<&str>) -> Option<Form>
    ensures run { name.now ≡ codes "run" → option_map (λ s. s.now) number.entry ≡ None → option_map (λ s. s.now) pool.entry ≡ None → result ≡ Some (Form.Run None) }
    ensures slots { (n : ℕ) → name.now ≡ codes "run" → option_map (λ s. s.now) number.entry ≡ Some (decimal n) → option_map (λ s. s.now) pool.entry ≡ None → n ≤ most_slots → result ≡ Some (Form.Run (Some n)) }
    ensures pool { (n : ℕ) → name.now ≡ codes "run" → option_map (λ s. s.now) pool.entry ≡ Some (decimal n) → n ≤ most_slots → result ≡ Some (Form.Pool n) }
    ensures check { name.now ≡ codes "check" → option_map (λ s. s.now) number.entry ≡ None → result ≡ Some (Form.Check None) }
    ensures check_slots { (n : ℕ) → name.now ≡ codes "check" → option_map (λ s. s.now) number.entry ≡ Some (decimal n) → n ≤ most_slots → result ≡ Some (Form.Check (Some n)) }
    ensures sample { (n : ℕ) → name.now ≡ codes "sample" → option_map (λ s. s.now) number.entry ≡ Some (decimal n) → n ≤ most_asked → result ≡ Some (Form.Sample n) }
{
    match name {
        "run" => run_form(number, pool),
        "check" => Some(Form::Check {
            slots: slots_in(number)?,
        }),
        "sample" => Some(Form::Sample(number_of(number?)?)),
        _ => None,
    }
}

// The form of `run`, by the numbers of its two options.
fn run_form(number: Option<&str>, pool: Option<&str>) -> Option<Form>
    ensures run { option_map (λ s. s.now) number.entry ≡ None → option_map (λ s. s.now) pool.entry ≡ None → result ≡ Some (Form.Run None) }
    ensures slots { (n : ℕ) → option_map (λ s. s.now) number.entry ≡ Some (decimal n) → option_map (λ s. s.now) pool.entry ≡ None → n ≤ most_slots → result ≡ Some (Form.Run (Some n)) }
    ensures pool { (n : ℕ) → option_map (λ s. s.now) pool.entry ≡ Some (decimal n) → n ≤ most_slots → result ≡ Some (Form.Pool n) }
{
    match pool {
        None => Some(Form::Run {
            slots: slots_in(number)?,
        }),
        Some(text) => Some(Form::Pool {
            slots: number_of(text)?,
        }),
    }
}

// The number of slots, where one is named. None where it is no number.
fn slots_in(number: Option<&str>) -> Option<Option<u32>>
    ensures unnamed { option_map (λ s. s.now) number.entry ≡ None → result ≡ Some None }
    ensures named { (n : ℕ) → option_map (λ s. s.now) number.entry ≡ Some (decimal n) → n ≤ most_slots → result ≡ Some (Some n) }
{
    match number {
        None => Some(None),
        Some(text) => Some(Some(number_of(text)?)),
    }
}

fn number_of(text: &str) -> Option<u32>
    ensures { (n : ℕ) → text.now ≡ decimal n → n < 2 ^ 32 → result ≡ Some n }
{
    match text.parse::<u32>() {
        Ok(n) => Some(n),
        Err(_) => None,
    }
}
