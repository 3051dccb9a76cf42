// Blocks of lines that are read in rounds, several at once, while the lines of the round before are taken.
ghost use Rattle.std.specs.Prelude.{◌≡◌, ◌+◌, ◌^◌, ◌<◌, ◌≤◌, take, drop, length, IfOk, OnOk};
ghost use Rattle.std.specs.Thread.{IsSync};
ghost use Rattle.request_lines.specs.Counting.{IsWithin};
ghost use Rattle.request_lines.specs.Reading.{progress, TakesAll};
ghost use Rattle.request_lines.specs.Said.{AreRead, IsReadAt, texts_in};

use crate::SessionError;
use crate::reader::Reader;
use crate::said::Said;
use key_names::NoMemory;
use std::alloc::Global;
use std::thread::{Threads, join_mut};
use std::{mem, thread};

/// Takes the lines of all blocks, of which at most so many are read at once, and returns how many lines there are.
pub(crate) fn take_rounds<Rt: Threads + Sync>(
    rt: &Rt,
    alloc: Global,
    reader: &mut Reader,
    blocks: &[&[u8]],
    most: usize,
) -> Result<u32, SessionError>
    requires some { 0 < most }
    requires few { length (texts_in blocks.now) < 2 ^ 32 }
    requires within { IsWithin reader.old.counts }
    ensures taken { TakesAll (progress reader.old) 0 (texts_in blocks.now) (progress reader.new) result }
    ensures within { OnOk result (IsWithin reader.new.counts) }
{
    let mut said = empty_lists(alloc, most)?;
    let mut spare = empty_lists(alloc, most)?;
    read_all(rt, alloc, round_at(blocks, 0, most), &mut said);
    reader.make_room(expected_lines(&said, blocks.len()));
    let mut number: u32 = 0;
    let mut done = 0;
    while done < blocks.len() {
        let round = round_at(blocks, done, most);
        let next = round_at(blocks, done + round.len(), most);
        number = take_beside(
            rt, alloc, reader, number, round, &mut said, next, &mut spare,
        )?;
        mem::swap(&mut said, &mut spare);
        done += round.len();
    }
    Ok(number)
}

// About how many lines so many blocks have, if those of each round have as many as those that were read.
fn expected_lines(said: &[Said], blocks: usize) -> usize {
    let mut lines: usize = 0;
    for block in said {
        lines = lines.saturating_add(block.commands.len());
    }
    let rounds = blocks.div_ceil(said.len().max(1));
    lines.saturating_mul(rounds)
}

// Takes the lines of a round, which were read into the first lists, and meanwhile reads the next round into other
// lists, on other threads.
fn take_beside<Rt: Threads + Sync>(
    rt: &Rt,
    alloc: Global,
    reader: &mut Reader,
    before: u32,
    round: &[&[u8]],
    said: &mut Vec<Said>,
    next: &[&[u8]],
    spare: &mut Vec<Said>,
) -> Result<u32, SessionError>
    requires within { IsWithin reader.old.counts }
    requires read { AreRead round.now said.old.items }
    requires few { before + length (texts_in round.now) < 2 ^ 32 }
    requires room { length next.now ≤ length spare.old.items }
    ensures taken { TakesAll (progress reader.old) before (texts_in round.now) (progress reader.new) result }
    ensures within { OnOk result (IsWithin reader.new.counts) }
    ensures next { AreRead next.now spare.new.items }
    ensures said_room { length said.new.items ≡ length said.old.items }
    ensures spare_room { length spare.new.items ≡ length spare.old.items }
{
    if next.is_empty() {
        return reader.take_each(alloc, before, round, said);
    }
    let mut read = ||
        requires { IsSync Rt.row × (length next.now ≤ length spare.now.items) }
        ensures { AreRead next.entry.now spare.exit.now.items × (length spare.exit.now.items ≡ length spare.entry.now.items) }
    { read_all(rt, alloc, next, spare) };
    let mut take = || -> Result<u32, SessionError>
        requires { IsWithin reader.now.counts × AreRead round.now said.now.items × (before + length (texts_in round.now) < 2 ^ 32) }
        ensures { TakesAll (progress reader.entry.now) before (texts_in round.entry.now) (progress reader.exit.now) result × OnOk result (IsWithin reader.exit.now.counts) × (length said.exit.now.items ≡ length said.entry.now.items) }
    { reader.take_each(alloc, before, round, said) };
    let (_, taken) = join_mut(rt, &mut read, &mut take);
    taken
}

// The blocks from this one on, at most so many.
fn round_at<'a, 'b>(blocks: &'b [&'a [u8]], done: usize, most: usize) -> &'b [&'a [u8]]
    requires { done ≤ length blocks.now }
    ensures round { result.now ≡ take most (drop done blocks.now) }
    ensures whole { result.now ≡ take (length result.now) (drop done blocks.now) }
{
    let (_, left) = blocks.split_at(done);
    let (round, _) = left.split_at(left.len().min(most));
    round
}

// So many lists of what no line says yet.
fn empty_lists(alloc: Global, count: usize) -> Result<Vec<Said>, NoMemory>
    ensures { IfOk result (λ said. length said.items ≡ count) }
{
    let mut said = Vec::new(alloc);
    for _ in 0..count {
        said.push(Said::new(alloc))?;
    }
    Ok(said)
}

// Puts what the lines of the blocks say into the first lists, at once.
fn read_all<Rt: Threads + Sync>(rt: &Rt, alloc: Global, blocks: &[&[u8]], said: &mut Vec<Said>)
    requires { length blocks.now ≤ length said.old.items }
    ensures read { AreRead blocks.now said.new.items }
    ensures as_many { length said.new.items ≡ length said.old.items }
{
    let (used, _) = said.as_mut_slice().split_at_mut(blocks.len());
    read_each(rt, alloc, blocks, used);
}

// Puts what the lines of each block say into the list at its place, each on a thread of its own, where one can be
// started.
fn read_each<Rt: Threads + Sync>(rt: &Rt, alloc: Global, blocks: &[&[u8]], said: &mut [Said])
    requires one_each { length said.old ≡ length blocks.now }
    ensures read { AreRead blocks.now said.new }
    ensures as_many { length said.new ≡ length said.old }
{
    let read = |place: usize, said: &mut Said|
        requires { place < length blocks.now }
        ensures { IsReadAt blocks.entry.now place said.exit.now }
    { said.read(alloc, blocks[place]) };
    thread::for_each_mut(rt, said, blocks.len().max(1), &read);
}
