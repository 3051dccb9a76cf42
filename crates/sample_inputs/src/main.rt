// Prints the input of the generated session, with as many requests of each client as the argument says; without an
// argument, with three. `tests/program/sample_inputs.py` compares it with a model.
#![tactic(auto)]

use outside_io::{StdSink, write_all};
use request_lines::sample_input;
use std::env;
use std::process::ExitCode;

const MOST: u32 = 40_000;

fn main(rt: HostRuntime) -> ExitCode {
    let n = match env::args(&rt) {
        Ok(mut words) => match words.nth(1) {
            Some(word) => word.as_str().parse::<u32>().unwrap_or(0),
            None => 3,
        },
        Err(_) => 0,
    };
    if n < 1 || MOST < n {
        return ExitCode::from(2);
    }
    let Ok(input) = sample_input(rt.alloc(), n) else {
        return ExitCode::from(7);
    };
    match write_all(&mut StdSink::new(&rt), &input) {
        Ok(()) => ExitCode::SUCCESS,
        Err(_) => ExitCode::from(6),
    }
}
