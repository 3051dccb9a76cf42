//! A first program over the shared index, to be copied: two threads with a pass each put, look up and list names at
//! once, a node slot goes from one to the other, and the index is closed to its history. `run` says what its answers
//! are.
#![tactic(auto)]

mod run;
mod turn;

use bucket_terms::ListQuery;
use key_names::{Directory, NoMemory, Text};
use run::{Ran, Tasks, run};
use std::alloc::Global;
use std::io;
use std::sync::Wait;
use std::thread::Threads;
use turn::Task;

fn main(rt: HostRuntime) -> io::Result<()> {
    let Ok(dir) = names(rt.alloc()) else {
        return println!(rt; "no memory");
    };
    match run_over(&rt, rt.alloc(), &dir) {
        Ok(ran) => report(&rt, &dir, &ran),
        Err(NoMemory) => println!(rt; "no memory"),
    }
}

/// The names that the index may have, in their byte order.
fn names(alloc: Global) -> Result<Directory, NoMemory> {
    let mut names = Vec::new(alloc);
    for name in ["plums", "apples", "quinces", "pears"] {
        names.push(Text::of(alloc, name)?)?;
    }
    match Directory::new(alloc, names) {
        Ok(dir) => Ok(dir),
        Err(_) => Err(NoMemory),
    }
}

/// A listing of all names.
fn all_names(alloc: Global) -> Result<ListQuery, NoMemory> {
    Ok(ListQuery {
        prefix: Text::of(alloc, "")?,
        delimiter: Text::of(alloc, "")?,
        start_after: Text::of(alloc, "")?,
        token: Text::of(alloc, "")?,
        max_keys: 1000,
        url: false,
    })
}

/// Each thread puts two names, and looks up those of the other one.
fn run_over<Rt: Threads + Wait + Sync>(
    rt: &Rt,
    alloc: Global,
    dir: &Directory,
) -> Result<Ran, NoMemory> {
    let first = Tasks {
        early: task(1, 0, 1),
        late: task(2, 2, 3),
    };
    let second = Tasks {
        early: task(1, 1, 0),
        late: task(2, 3, 2),
    };
    run(rt, alloc, dir, &all_names(alloc)?, first, second)
}

fn task(line: u32, puts: u64, looks_up: u64) -> Task {
    Task {
        line,
        puts,
        val: puts,
        looks_up,
    }
}

/// Prints what is the same whatever the schedule: who put each name, and whether a slot was handed on.
fn report(rt: &HostRuntime, dir: &Directory, ran: &Ran) -> io::Result<()> {
    for rank in 0..dir.len() {
        for update in ran.history.as_slice() {
            if update.key == rank {
                let (name, thread) = (dir.name(rank).as_str(), update.client);
                println!(rt; "{name}: put by thread {thread}")?;
            }
        }
    }
    println!(rt;
        "{} updates, a slot handed on: {}",
        ran.history.len(),
        ran.handed
    )
}
