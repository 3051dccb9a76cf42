// Carries out plans of updates on the pure machine. Standard input has the sizes of the passes, what each is asked for,
// and whose turn it is; each turn is one step of a pass, usually one event. It prints what each step has reported, and
// at the end how many events there were, and the words.
#![tactic(auto)]

mod input;
mod machine;
mod plain;
mod planned;
mod prune;
mod search;
mod seat;
mod turn;
mod update;
mod walk;

use index_words::Layout;
use input::{Input, input_of};
use machine::{Machine, Stop};
use outside_io::{StdSource, read_all};
use seat::{Report, Seat};
use std::alloc::Global;
use std::io;
use turn::turn;

const MOST_BYTES: usize = 1 << 30;

/// How many turns each pass gets at the end, in which it begins nothing new.
const LAST_TURNS: u32 = 500;

fn main(rt: HostRuntime) -> io::Result<()> {
    let alloc = rt.alloc();
    let Ok(bytes) = read_all(alloc, &mut StdSource::new(&rt), MOST_BYTES) else {
        return println!(rt; "no input");
    };
    let Some(mut input) = std::str::from_utf8(&bytes)
        .ok()
        .and_then(|text| input_of(alloc, text))
    else {
        return println!(rt; "no run");
    };
    let ran = run(&rt, alloc, &mut input);
    drop(input);
    ran
}

fn run(rt: &HostRuntime, alloc: Global, input: &mut Input) -> io::Result<()> {
    let Some(layout) = Layout::new(input.sizes.as_slice()) else {
        return println!(rt; "no layout");
    };
    let Ok(mut machine) = Machine::start(alloc, &layout, input.sizes.as_slice()) else {
        return println!(rt; "no memory");
    };
    let ran = take_turns(rt, alloc, &mut machine, input);
    drop(machine);
    ran
}

fn take_turns(
    rt: &HostRuntime,
    alloc: Global,
    machine: &mut Machine,
    input: &mut Input,
) -> io::Result<()> {
    for number in input.turns.as_slice() {
        if !one_turn(rt, alloc, machine, &mut input.seats, *number, true)? {
            return Ok(());
        }
    }
    for _ in 0..LAST_TURNS {
        for number in 0..input.seats.len() {
            if !one_turn(rt, alloc, machine, &mut input.seats, number, false)? {
                return Ok(());
            }
        }
    }
    print_words(rt, machine)
}

// Makes a turn of a pass. Returns whether the run goes on.
fn one_turn(
    rt: &HostRuntime,
    alloc: Global,
    machine: &mut Machine,
    seats: &mut Vec<Seat>,
    number: usize,
    begins: bool,
) -> io::Result<bool> {
    let Some(seat) = seats.get_mut(number) else {
        println!(rt; "no seat {number}")?;
        return Ok(false);
    };
    match turn(alloc, machine, seat, begins) {
        Ok(None) => Ok(true),
        Ok(Some(report)) => {
            print_report(rt, number, &report)?;
            Ok(true)
        }
        Err(Stop::NoMemory) => {
            println!(rt; "no memory")?;
            Ok(false)
        }
        Err(Stop::Refused(kind)) => {
            println!(rt; "refused {number} {kind:?}")?;
            Ok(false)
        }
        Err(Stop::Wrong) => {
            println!(rt; "wrong {number}")?;
            Ok(false)
        }
    }
}

fn print_report(rt: &HostRuntime, number: usize, report: &Report) -> io::Result<()> {
    match report {
        Report::Raised { at, key, val, was } => match val {
            Some(val) => println!(rt; "raised {number} {at} put {key} {val} {was}"),
            None => println!(rt; "raised {number} {at} remove {key} {was}"),
        },
        Report::Cut { entry, next } => println!(rt; "cut {number} {entry} {next}"),
        Report::Tried {
            outcome,
            at,
            counts,
        } => {
            let (busy, waits, moves) = (counts.busy, counts.waits, counts.moves);
            println!(rt; "tried {number} {outcome:?} {at} {busy} {waits} {moves}")
        }
        Report::Found {
            at,
            key,
            val,
            counts,
        } => {
            let (busy, waits, moves) = (counts.busy, counts.waits, counts.moves);
            match val {
                Some(val) => {
                    println!(rt; "found {number} {at} {key} {val} {busy} {waits} {moves}")
                }
                None => println!(rt; "missing {number} {at} {key} {busy} {waits} {moves}"),
            }
        }
    }
}

fn print_words(rt: &HostRuntime, machine: &Machine) -> io::Result<()> {
    let events = machine.events;
    println!(rt; "events {events}")?;
    for number in 0..machine.layout.word_count() {
        let word = machine.state.word(number).unwrap_or(0);
        if number > 0 {
            print!(rt; " ")?;
        }
        print!(rt; "{word}")?;
    }
    println!(rt; "")
}
