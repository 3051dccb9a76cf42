// What is printed of a run, one line each.
use crate::token::Token;
use crate::work::Log;
use std::io;

pub(crate) fn print_worked(rt: &HostRuntime, worked: &[Log]) -> io::Result<()> {
    for (seat, log) in worked.iter().enumerate() {
        println!(rt;
            "S {seat} {} {} {} {}",
            log.gave.len(),
            log.took.len(),
            log.empties,
            log.fulls
        )?;
        for tag in log.gave.as_slice() {
            println!(rt; "G {seat} {tag}")?;
        }
        for tag in log.took.as_slice() {
            println!(rt; "T {seat} {tag}")?;
        }
    }
    Ok(())
}

pub(crate) fn print_left(rt: &HostRuntime, left: &[Token]) -> io::Result<()> {
    for token in left {
        println!(rt; "L {}", token.tag)?;
    }
    Ok(())
}
