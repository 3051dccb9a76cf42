// What is printed of a run, one line each.
use crate::plan::Asked;
use crate::run::Ran;
use crate::sections::Sectioned;
use crate::turns::Found;
use crate::work::Event;
use index_words::{Change, Update};
use key_map::Done;
use link_check::Unlike;
use shared_index::Settling;
use std::fmt::Write;
use std::io;

/// What a run found.
#[derive(Drop)]
pub(crate) enum Outcome {
    Ran(Ran),
    /// A run of which nothing is printed.
    Timed,
    Sectioned(Sectioned),
    /// What each pass has found or done while another one had stopped.
    Waited(Vec<Option<u64>>),
}

/// Prints a run.
pub(crate) fn print_outcome(rt: &HostRuntime, outcome: &Outcome) -> io::Result<()> {
    match outcome {
        Outcome::Ran(ran) => {
            for (number, events) in ran.events.iter().enumerate() {
                print_events(rt, number, events.as_slice())?;
            }
            print_links(rt, ran.links)?;
            print_history(rt, ran.history.as_slice())
        }
        Outcome::Timed => println!(rt; "made"),
        Outcome::Sectioned(ended) => {
            for (number, found) in ended.found.iter().enumerate() {
                print_found(rt, number, found)?;
            }
            print_history(rt, ended.history.as_slice())
        }
        Outcome::Waited(answers) => {
            for (number, answer) in answers.iter().enumerate() {
                println!(rt; "W {number} {}", answer.unwrap_or(0))?;
            }
            Ok(())
        }
    }
}

fn print_events(rt: &HostRuntime, number: usize, events: &[Event]) -> io::Result<()> {
    for event in events {
        print_event(rt, number, event)?;
    }
    Ok(())
}

fn print_event(rt: &HostRuntime, number: usize, event: &Event) -> io::Result<()> {
    match event {
        Event::Answered { line, asked, done } => print_answer(rt, number, *line, *asked, *done),
        Event::Refused { line, gone, come } => println!(rt; "N {number} {line} {gone} {come}"),
        Event::Listed {
            at,
            from,
            page,
            pairs,
        } => {
            let mut text = String::new(rt.alloc());
            for pair in pairs {
                write!(text, " {}:{}", pair.key, pair.val)?;
            }
            println!(rt; "L {number} {at} {from} {page}{text}")
        }
        Event::Tried(Settling::Settled) => println!(rt; "T {number} settled"),
        Event::Tried(Settling::Held { seat, word }) => {
            println!(rt; "T {number} held {seat} {word}")
        }
        Event::Back(back) => println!(rt; "B {number} {back}"),
        Event::Met(met) => println!(rt; "C {number} {} {} {}", met.busy, met.moved, met.pending),
        Event::Free { nodes, entries } => {
            println!(rt; "F {number} node{}", listed(rt, nodes.as_slice())?)?;
            println!(rt; "F {number} entry{}", listed(rt, entries.as_slice())?)
        }
    }
}

fn print_answer(
    rt: &HostRuntime,
    number: usize,
    line: u32,
    asked: Asked,
    done: Done,
) -> io::Result<()> {
    let Done { at, was } = done;
    match asked {
        Asked::Put { key, val } => println!(rt; "P {number} {line} {at} {key} {val} {was}"),
        Asked::PutNew { key, val } => println!(rt; "I {number} {line} {at} {key} {val} {was}"),
        Asked::Remove { key } => println!(rt; "R {number} {line} {at} {key} {was}"),
    }
}

/// How many plain links the tree has, or the first one that is not the tree's.
fn print_links(rt: &HostRuntime, links: Result<u64, Unlike>) -> io::Result<()> {
    match links {
        Ok(links) => println!(rt; "X {links}"),
        Err(unlike) => println!(rt; "X {unlike:?}"),
    }
}

fn print_history(rt: &HostRuntime, history: &[Update]) -> io::Result<()> {
    for (place, update) in history.iter().enumerate() {
        let place = place.saturating_add(1);
        match update.change {
            Change::Put(val) => println!(rt;
                "J {place} {} {} {} {val}",
                update.client, update.line, update.key
            )?,
            Change::Remove => println!(rt;
                "J {place} {} {} {}",
                update.client, update.line, update.key
            )?,
        }
    }
    Ok(())
}

/// The numbers of slots, each after a space.
fn listed(rt: &HostRuntime, slots: &[u32]) -> Result<String, std::fmt::Error> {
    let mut text = String::new(rt.alloc());
    for slot in slots {
        write!(text, " {slot}")?;
    }
    Ok(text)
}

/// What a pass over the table has found: its meetings, its looks and those that found a word fallen, and of each pass
/// the first and the last word.
fn print_found(rt: &HostRuntime, number: usize, found: &Found) -> io::Result<()> {
    print!(rt;
        "S {number} {} {} {}",
        found.meetings, found.looks, found.falls
    )?;
    for (first, last) in found.first.iter().zip(found.last.iter()) {
        print!(rt; " {first}:{last}")?;
    }
    println!(rt; "")
}
