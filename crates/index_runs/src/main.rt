// Passes at work on threads, over one shared index, or over its table. The first argument says what they do, and after
// it come names of numbers, each with its number. Each request is printed with its answer, or what each pass has found,
// then how many plain links were found to be those of the tree when all was done, and then the history:
// `tests/machine/index_runs.py` checks all of it.
//
//     run       each pass makes requests: of a hundred `updates` are updates, `listings` listings of `page` pairs
//     time      as `run`, and nothing is printed of it, for `bench/index`
//     held      one pass makes updates, and `meanwhile` more while `readers` are held inside snapshots
//     puts      as `held`, and all updates are puts
//     tries     each request is a single try of a put
//     visits    passes put and remove by turns, while `readers` come and go, and stay `turns` turns
//     few       passes with few slots update next to such readers, empty the map, and report their free slots
//               at the end
//     far       each pass but one removes a key whose successor is further down, while `readers` are held inside
//               snapshots; the other one has put the keys, sees the removals take effect, and makes `meanwhile` updates
//     deep      one pass puts `keys` random keys, and then each makes `requests` removals
//     sections  four passes over the table enter, leave, fill words and look at each other, `turns` turns between two
//               meetings, and take in each other's notes
//     waits     a pass over the table stops in the middle of an update for `turns` turns, while the others wait for it
//
// The names are those of the fields of `Run`. Without arguments a small run is made.
#![tactic(auto)]

mod deep;
mod far;
mod free;
mod gate;
mod held;
mod plan;
mod random;
mod report;
mod run;
mod sections;
mod tries;
mod turns;
mod visits;
mod waits;
mod work;

use plan::{Run, SMALL, Task};
use report::{Outcome, print_outcome};
use run::{Stopped, make_run};
use sections::make_sections;
use std::alloc::Global;
use std::sync::Wait;
use std::thread::Threads;
use std::{env, io};
use waits::make_waits;

/// So many numbers may be named.
const NAMES: u32 = 16;

fn main(rt: HostRuntime) -> io::Result<()> {
    let Some(run) = run_of(env::args(&rt)?) else {
        return println!(rt; "a task is wanted, and names with numbers");
    };
    match make(&rt, rt.alloc(), &run) {
        Ok(outcome) => print_outcome(&rt, &outcome),
        Err(stopped) => println!(rt; "{stopped:?}"),
    }
}

/// The run of the arguments.
fn run_of(mut words: env::Args) -> Option<Run> {
    let mut run = SMALL;
    let _program = words.next();
    let Some(task) = words.next() else {
        return Some(run);
    };
    run.task = Task::of(task.as_str())?;
    for _ in 0..NAMES {
        let Some(name) = words.next() else {
            break;
        };
        let number = words.next()?.as_str().parse::<u32>().ok()?;
        if !run.set(name.as_str(), number) {
            return None;
        }
    }
    Some(run)
}

/// Makes the run.
fn make<R: Threads + Wait + Sync>(rt: &R, alloc: Global, run: &Run) -> Result<Outcome, Stopped> {
    Ok(match run.task {
        Task::Sections => Outcome::Sectioned(make_sections(rt, alloc, run.turns)?),
        Task::Waits => Outcome::Waited(make_waits(rt, alloc, run.turns)?),
        Task::Timed => {
            make_run(rt, alloc, run)?;
            Outcome::Timed
        }
        _ => Outcome::Ran(make_run(rt, alloc, run)?),
    })
}
