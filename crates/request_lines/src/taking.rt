// What the lines of blocks say is checked against the limits, and kept.
ghost use Rattle.std.specs.Prelude.{◌≡◌, ℕ, ◌+◌, ◌<◌, ◌^◌, List, length, OnOk};
ghost use Rattle.request_lines.specs.Counting.{IsWithin};
ghost use Rattle.request_lines.specs.InputParts.{texts_of};
ghost use Rattle.request_lines.specs.Reading.{progress, TakesAll};
ghost use Rattle.request_lines.specs.Said.{IsRead, AreRead, texts_in};

use crate::SessionError;
use crate::blocks::first_block;
use crate::name_hints::NameHints;
use crate::reader::{Reader, error_at};
use crate::said::Said;
use line_grammar::LineError;
use std::alloc::Global;

impl Reader {
    /// Takes the lines of a block, which have so many before them, and returns how many there are with them.
    fn take_all(&mut self, alloc: Global, before: u32, said: &mut Said) -> Result<u32, SessionError>
        requires within { IsWithin self.old.counts }
        requires says { (texts : List (List ℕ)) × IsRead texts said.old × (before + length texts < 2 ^ 32) }
        ensures taken { (texts : List (List ℕ)) → IsRead texts said.old → TakesAll (progress self.old) before texts (progress self.new) result }
        ensures within { OnOk result (IsWithin self.new.counts) }
    {
        said.memory?;
        let mut number = before;
        let mut hints = NameHints::none();
        for place in 0..said.commands.len() {
            number += 1;
            let hint = hints.at(&self.names, said.commands.as_slice(), place);
            self.take_said(alloc, number, said.commands[place].take(), hint)?;
        }
        match said.cause {
            Some(cause) => Err(error_at(number + 1, LineError::Faulty(cause))),
            None => Ok(number),
        }
    }

    /// Takes the lines of blocks, which have so many before them, and returns how many there are with them. What they
    /// say is taken out of the first lists.
    pub(crate) fn take_each(
        &mut self,
        alloc: Global,
        before: u32,
        blocks: &[&[u8]],
        said: &mut Vec<Said>,
    ) -> Result<u32, SessionError>
        requires within { IsWithin self.old.counts }
        requires read { AreRead blocks.now said.old.items }
        requires few { before + length (texts_in blocks.now) < 2 ^ 32 }
        ensures taken { TakesAll (progress self.old) before (texts_in blocks.now) (progress self.new) result }
        ensures within { OnOk result (IsWithin self.new.counts) }
        ensures as_many { length said.new.items ≡ length said.old.items }
    {
        let mut number = before;
        for place in 0..blocks.len() {
            number = self.take_all(alloc, number, &mut said[place])?;
        }
        Ok(number)
    }

    /// Reads the lines of an input block by block, takes them, and returns how many there are.
    pub(crate) fn take_in_turn(&mut self, alloc: Global, bytes: &[u8]) -> Result<u32, SessionError>
        requires within { IsWithin self.old.counts }
        requires few { length (texts_of bytes.now) < 2 ^ 32 }
        ensures taken { TakesAll (progress self.old) 0 (texts_of bytes.now) (progress self.new) result }
        ensures within { OnOk result (IsWithin self.new.counts) }
    {
        let mut said = Said::new(alloc);
        let mut number = 0;
        let mut left = Some(bytes);
        while let Some(lines) = left {
            let (block, rest) = first_block(lines);
            said.read(alloc, block);
            number = self.take_all(alloc, number, &mut said)?;
            left = rest;
        }
        Ok(number)
    }
}
