// Threads at a depot by itself. Each draws tags, gives a parcel with each tag that it draws, takes two after each of
// the first 64 of 128 of them, and one whenever the depot is full, until so many parcels were given in all. Then the
// depot is closed.
//
//     depot_runs SEATS ROOM PARCELS
//             prints a line for each seat, `S SEAT GIVEN TAKEN EMPTIES FULLS`, a line for each tag that it gave,
//             `G SEAT TAG`, and for each that it took, `T SEAT TAG`, and one for each tag that was left, `L TAG`:
//             `tests/machine/depot_runs.py` checks them
//
// Without arguments a depot of one parcel is tried from one seat, and then a small run is made: how many parcels were
// given, and how many were taken or left, is printed.
#![tactic(auto)]

mod one_by_one;
mod report;
mod run;
mod token;
mod work;

use one_by_one::print_one_by_one;
use report::{print_left, print_worked};
use run::{Ran, make_run};
use std::sync::Wait;
use std::thread::Threads;
use std::{env, io};

fn main(rt: HostRuntime) -> io::Result<()> {
    let mut words = env::args(&rt)?;
    let _program = words.next();
    let mut numbers = [0u32; 3];
    let mut read = 0;
    for number in numbers.iter_mut() {
        let Some(word) = words.next() else {
            break;
        };
        let Ok(found) = word.as_str().parse::<u32>() else {
            return println!(rt; "numbers are wanted");
        };
        *number = found;
        read = 1;
    }
    if read == 0 {
        print_one_by_one(&rt, &rt)?;
        return print_run(&rt, &rt, [4, 8, 2000], false);
    }
    print_run(&rt, &rt, numbers, true)
}

/// Makes a run, and prints what it found.
fn print_run<R: Threads + Wait + Sync>(
    rt: &HostRuntime,
    threads: &R,
    numbers: [u32; 3],
    each: bool,
) -> io::Result<()> {
    let [seats, room, parcels] = numbers;
    if seats == 0 || room == 0 {
        return println!(rt; "a seat and room are wanted");
    }
    let Ok(Ran { worked, left }) = make_run(threads, rt.alloc(), seats, room, parcels) else {
        return println!(rt; "no memory");
    };
    if each {
        print_worked(rt, worked.as_slice())?;
        return print_left(rt, left.as_slice());
    }
    let mut given = 0usize;
    let mut gone = left.len();
    for one in worked.as_slice() {
        given = given.saturating_add(one.gave.len());
        gone = gone.saturating_add(one.took.len());
    }
    println!(rt; "{given} given, {gone} taken or left")
}
