// Times of listings of a snapshot, over a table whose keys were put in random order. Three arguments: the kind of the
// run, how many keys, and how many listings of all of them:
//
//     way KEYS LISTINGS       each search goes on from the way to the last pair
//     root KEYS LISTINGS      each search begins at the root
//     near KEYS LISTINGS      as `way`, with keys near one another, as the ranks of names are; fewer, since some are
//                             put several times
//     hinted KEYS LISTINGS    as `near`, with the hints of an earlier listing
//     stale KEYS LISTINGS     as `near`, one listing, with the hints of a listing before all keys were put anew
//     beside KEYS LISTINGS    as `way`, by three passes on threads, next to one that puts all keys again so many times
//
// A line is printed for each pass: its number, how many pairs it has listed or put, and in how many nanoseconds;
// `bench/listings` computes the nanoseconds of an entry. Without arguments small runs are made, and no nanoseconds are
// printed.
#![tactic(auto)]

mod run;
mod work;

use run::{Kind, Run, make_run};
use std::rt::Clock;
use std::sync::Wait;
use std::thread::Threads;
use std::{env, io};
use work::Made;

/// The small runs. Those with near keys list the same pairs, whatever the hints are: the last one, which lists once,
/// half as many.
const SMALL: [Kind; 4] = [Kind::Beside, Kind::Near, Kind::Hinted, Kind::Stale];

fn main(rt: HostRuntime) -> io::Result<()> {
    let mut words = env::args(&rt)?;
    let _program = words.next();
    let Some(word) = words.next() else {
        for kind in SMALL {
            let run = Run {
                kind,
                keys: 100,
                turns: 2,
            };
            print_run(&rt, &rt, &run, false)?;
        }
        return Ok(());
    };
    let mut numbers = [0u32; 2];
    for number in numbers.iter_mut() {
        let Some(read) = words
            .next()
            .and_then(|word| word.as_str().parse::<u32>().ok())
        else {
            return println!(rt; "two numbers are wanted");
        };
        *number = read;
    }
    let [keys, turns] = numbers;
    match kind_of(word.as_str()) {
        Some(kind) => print_run(&rt, &rt, &Run { kind, keys, turns }, true),
        None => println!(rt; "way, root, near, hinted, stale or beside is wanted"),
    }
}

fn kind_of(word: &str) -> Option<Kind> {
    match word {
        "way" => Some(Kind::Way),
        "root" => Some(Kind::Root),
        "near" => Some(Kind::Near),
        "hinted" => Some(Kind::Hinted),
        "stale" => Some(Kind::Stale),
        "beside" => Some(Kind::Beside),
        _ => None,
    }
}

/// Makes a run and prints what each pass has made, with its nanoseconds or without them.
fn print_run<R: Threads + Wait + Clock + Sync>(
    rt: &HostRuntime,
    threads: &R,
    run: &Run,
    timed: bool,
) -> io::Result<()> {
    let Ok(made) = make_run(threads, rt.alloc(), run) else {
        return println!(rt; "there was no memory");
    };
    for (number, Made { count, nanos }) in made.iter().enumerate() {
        if timed {
            println!(rt; "{number} {count} {nanos}")?;
        } else {
            println!(rt; "{number} {count}")?;
        }
    }
    Ok(())
}
