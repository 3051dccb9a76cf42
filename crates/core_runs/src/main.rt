// Runs the pure machine. With the argument `rows` it reads tests from standard input, as `rows.rt` says, and prints
// each row that does not hold, and how many there were. With a number it runs one pass in and out of its section, so
// many events, and prints the section word afterwards; `bench/README.md` says how to measure with it. Without an
// argument it reads a run from standard input, and prints the words of the table afterwards, or the place of the first
// event that is refused.
#![tactic(auto)]

mod reading;
mod row;
mod rows;
mod shown;
mod table;
mod turns;
mod updates;
mod words;

use core_rule::{RunError, State, run_of};
use index_words::{Layout, PassSize};
use outside_io::{StdSource, read_all};
use reading::{Run, run_of_text};
use rows::check_row;
use std::{env, io};
use table::Table;
use turns::{SIZE, turns};

const MOST_BYTES: usize = 1 << 30;

fn main(rt: HostRuntime) -> io::Result<()> {
    match env::args(&rt)?.nth(1) {
        None => run_input(&rt),
        Some(word) if word.as_str() == "rows" => run_rows(&rt),
        Some(count) => run_turns(&rt, count.as_str().parse::<u64>().unwrap_or(0)),
    }
}

fn run_rows(rt: &HostRuntime) -> io::Result<()> {
    let alloc = rt.alloc();
    let Ok(bytes) = read_all(alloc, &mut StdSource::new(rt), MOST_BYTES) else {
        return println!(rt; "no input");
    };
    let Ok(text) = std::str::from_utf8(&bytes) else {
        return println!(rt; "no rows");
    };
    let mut table: Option<Table> = None;
    let checked = check_rows(rt, &mut table, text);
    drop(table);
    let Checked {
        tests,
        rows,
        failed,
    } = checked?;
    println!(rt; "{tests} tests of {rows} rows, {failed} do not hold")
}

/// How many tests and rows a text has, and how many of the rows do not hold.
#[derive(Clone, Copy)]
struct Checked {
    tests: usize,
    rows: usize,
    failed: usize,
}

/// Checks the rows of a text, and prints those that do not hold.
fn check_rows(rt: &HostRuntime, table: &mut Option<Table>, text: &str) -> io::Result<Checked> {
    let (mut tests, mut rows, mut failed) = (0usize, 0usize, 0usize);
    for (place, row) in text.lines().enumerate() {
        if row.is_empty() || row.starts_with('#') {
            continue;
        }
        if row.starts_with("test ") {
            drop(table.take());
            tests = tests.saturating_add(1);
            continue;
        }
        rows = rows.saturating_add(1);
        if let Err(fault) = check_row(rt.alloc(), table, row) {
            failed = failed.saturating_add(1);
            let line = place.saturating_add(1);
            println!(rt; "line {line}: {row}: {fault:?}")?;
        }
    }
    Ok(Checked {
        tests,
        rows,
        failed,
    })
}

fn run_turns(rt: &HostRuntime, count: u64) -> io::Result<()> {
    let events = turns(rt.alloc(), count)?;
    let sizes = [SIZE];
    let word = Layout::new(&sizes).and_then(|layout| {
        run_of(rt.alloc(), &layout, &sizes, events.as_slice())
            .ok()
            .and_then(|state| {
                let word = state.word(1);
                drop(state);
                word
            })
    });
    match word {
        Some(word) => println!(rt; "{count} events: section word {word}"),
        None => println!(rt; "{count} events: refused"),
    }
}

fn run_input(rt: &HostRuntime) -> io::Result<()> {
    let alloc = rt.alloc();
    let Ok(bytes) = read_all(alloc, &mut StdSource::new(rt), MOST_BYTES) else {
        return println!(rt; "no input");
    };
    let Some(run) = std::str::from_utf8(&bytes)
        .ok()
        .and_then(|text| run_of_text(alloc, text))
    else {
        return println!(rt; "no run");
    };
    let Some(layout) = Layout::new(run.sizes.as_slice()) else {
        return println!(rt; "no layout");
    };
    match run_of(alloc, &layout, run.sizes.as_slice(), run.events.as_slice()) {
        Ok(state) => print_words(rt, &layout, &state),
        Err(RunError::NotAllowed(place)) => println!(rt; "refused {place}"),
        Err(RunError::NoMemory) => println!(rt; "no memory"),
    }
}

fn print_words(rt: &HostRuntime, layout: &Layout, state: &State) -> io::Result<()> {
    for number in 0..layout.word_count() {
        let word = state.word(number).unwrap_or(0);
        if number > 0 {
            print!(rt; " ")?;
        }
        print!(rt; "{word}")?;
    }
    println!(rt; "")
}
