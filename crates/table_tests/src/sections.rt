// Sections of a table without updates, loads of its root in them, and its close. Passes at work on threads, which hear
// each other's notes, are runs of `index_runs`.
ghost use Rattle.table_steps.specs.Passes.{IsPassOf};

use crate::set_up::{opened, size_of, two_passes};
use index_words::{NoMemory, Side};
use std::alloc::Global;
use std::test::Fail;
use table_steps::{PassKey, SharedTable};

const SIZE: (u32, u32, u32) = (1, 4, 1);

/// Opens and closes a section so often. Returns how often the stamp was found 0.
fn work(table: &SharedTable, key: PassKey, turns: u32) -> u32
    requires of { IsPassOf table.now key }
{
    let mut pass = table.attach(key);
    let mut zeros = 0u32;
    for _ in 0..turns {
        if pass.open_section() == 0 {
            zeros = zeros.wrapping_add(1);
        }
        pass.close_section();
    }
    zeros
}

/// The same on a table of its own.
fn work_alone(alloc: Global, turns: u32) -> Result<u32, NoMemory> {
    let (table, _, key) = two_passes(alloc, SIZE)?;
    Ok(work(&table, key, turns))
}

/// `bench/steps` times it.
#[test]
fn a_pass_opens_and_closes_ten_million_sections(rt: HostRuntime) -> Result<(), Fail> {
    assert_eq!(rt; work_alone(rt.alloc(), 10_000_000)?, 10_000_000);
    Ok(())
}

/// How long the history is.
fn closed_length(alloc: Global) -> Result<Option<usize>, NoMemory> {
    let (table, keys) = opened(alloc, &[size_of(SIZE); 2])?;
    match table.close(alloc, keys) {
        Ok(history) => Ok(Some(history.len())),
        Err(_) => Ok(None),
    }
}

#[test]
fn a_table_of_two_passes_without_updates_closes_to_the_empty_history(
    rt: HostRuntime,
) -> Result<(), Fail> {
    assert_eq!(rt; closed_length(rt.alloc())?, Some(0));
    Ok(())
}

/// A load of a word of the root by a pass, in its section.
#[derive(Clone, Copy)]
enum Load {
    Head(Side),
    Key,
    Val,
    Mark,
    /// A try of its lock: 1 where it is won.
    Lock,
}

/// What a pass finds.
fn found(table: &SharedTable, key: PassKey, load: Load) -> u64
    requires of { IsPassOf table.now key }
{
    let mut pass = table.attach(key);
    pass.enter();
    match load {
        Load::Head(side) => u64::from(pass.load_head(0, side)),
        Load::Key => pass.load_key(0),
        Load::Val => pass.load_val(0),
        Load::Mark => u64::from(pass.load_mark(0)),
        Load::Lock => u64::from(pass.try_lock(0)),
    }
}

/// The same on a table of its own.
fn found_alone(alloc: Global, load: Load) -> Result<u64, NoMemory> {
    let (table, _, key) = two_passes(alloc, SIZE)?;
    Ok(found(&table, key, load))
}

const ROOT: [(Load, u64); 6] = [
    (Load::Head(Side::Left), 0),
    (Load::Head(Side::Right), 0),
    (Load::Key, 0),
    (Load::Val, 0),
    (Load::Mark, 0),
    (Load::Lock, 1),
];

/// Whether each load finds what it should.
fn has_only_zeros(alloc: Global) -> Result<bool, NoMemory> {
    for (load, word) in ROOT {
        if found_alone(alloc, load)? != word {
            return Ok(false);
        }
    }
    Ok(true)
}

#[test]
fn the_root_of_an_empty_table_has_only_zeros(rt: HostRuntime) -> Result<(), Fail> {
    assert!(rt; has_only_zeros(rt.alloc())?);
    Ok(())
}
