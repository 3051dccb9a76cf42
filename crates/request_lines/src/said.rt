// What the lines of a block of an input say.
ghost use Rattle.std.specs.Prelude.{◌≡◌, ℕ, List, [], length, take, OnOk, IfSome};
ghost use Rattle.std.specs.Option.{option_map};
ghost use Rattle.std.specs.Str.{IsUtf8};
ghost use Rattle.memchr.specs.Find.{IsLastByte, is_byte};
ghost use Rattle.request_lines.specs.InputParts.{texts_of};
ghost use Rattle.request_lines.specs.Said.{Says, IsRead, AreFirst, ReadsLine};

use crate::lines::first_line;
use crate::room::make_room;
use key_names::NoMemory;
use line_grammar::{Cause, Command, LineError, command_of};
use memchr::memrchr;
use simdutf8::compat::from_utf8;
use std::alloc::Global;
use std::mem;

// Room is made for as many lines as there are if each has this many bytes: few lines are shorter.
const LINE_BYTES: usize = 16;

/// What the lines of a block say, in a list that serves for the next block too.
#[derive(Drop)]
pub(crate) struct Said {
    /// What each line says, in order, up to the first that has a cause of its own; None of an empty one.
    pub(crate) commands: Vec<Option<Command>>,
    /// The cause of the line after these, where there is one.
    pub(crate) cause: Option<Cause>,
    /// Whether memory sufficed to read the block.
    pub(crate) memory: Result<(), NoMemory>,
}

impl Said {
    pub(crate) fn new(alloc: Global) -> Said {
        Said {
            commands: Vec::new(alloc),
            cause: None,
            memory: Ok(()),
        }
    }

    /// Puts what the lines of the block say in the place of what stood here. The list is filled on the stack of its
    /// thread: those of other threads are next to it in memory, and where two processors write into one cache line by
    /// turns, each waits for the other at every write.
    pub(crate) fn read(&mut self, alloc: Global, block: &[u8])
        ensures { IsRead (texts_of block.now) self.new }
    {
        let mut said = mem::replace(self, Said::new(alloc));
        said.read_here(alloc, block);
        *self = said;
    }

    // The same, in place.
    fn read_here(&mut self, alloc: Global, block: &[u8])
        ensures { IsRead (texts_of block.now) self.new }
    {
        self.commands.clear();
        // Without the room the list grows as it is filled.
        let _ = self.commands.reserve(block.len() / LINE_BYTES);
        make_text_room(alloc, block);
        let (lines, cause) = text_lines(block);
        self.cause = cause;
        self.memory = self.push_lines(alloc, lines);
    }

    // Puts what these lines say here, where nothing stands yet but the cause of the line after them.
    fn push_lines(&mut self, alloc: Global, lines: Option<&str>) -> Result<(), NoMemory>
        requires { self.old.commands.items ≡ [] }
        ensures { (texts : List (List ℕ)) → AreFirst lines.entry texts self.old.cause → OnOk result (Says texts self.new) }
    {
        let mut left = lines;
        while let Some(text) = left {
            let (line, rest) = first_line(text);
            match line_said(alloc, line) {
                Ok(command) => self.commands.push(command)?,
                Err(LineError::Faulty(cause)) => {
                    self.cause = Some(cause);
                    return Ok(());
                }
                Err(LineError::NoMemory) => return Err(NoMemory),
            }
            left = rest;
        }
        Ok(())
    }
}

// The lines of a block up to the first that is not UTF-8, and the cause of that one, where there is one. The block is
// tested as a whole, which is faster than line by line.
fn text_lines(block: &[u8]) -> (Option<&str>, Option<Cause>)
    ensures { AreFirst result.0 (texts_of block.now) result.1 }
{
    match from_utf8(block) {
        Ok(text) => (Some(text), None),
        Err(error) => {
            let (front, _) = block.split_at(error.valid_up_to());
            (whole_lines(front), Some(Cause::NotUtf8))
        }
    }
}

// The lines of a text before its last line feed.
fn whole_lines(text: &[u8]) -> Option<&str>
    requires { IsUtf8 text.now }
    ensures place { IsLastByte (is_byte 10) text.now (option_map (λ lines. length lines.now) result) }
    ensures front { IfSome result (λ lines. lines.now ≡ take (length lines.now) text.now) }
{
    let end = memrchr(b'\n', text)?;
    let (lines, _) = text.split_at(end);
    match from_utf8(lines) {
        Ok(lines) => Some(lines),
        Err(_) => None,
    }
}

// Makes room for the texts that the block's lines may keep apart from the list: prefixes, and names of more bytes
// than a text has in itself. It does so twice: glibc gives the first block of a size back to the operating system,
// and keeps the second in the thread's memory.
fn make_text_room(alloc: Global, block: &[u8]) {
    let bytes = block.len().saturating_mul(2);
    make_room(alloc, bytes);
    make_room(alloc, bytes);
}

// What a line says; None where it is empty.
#[tactic(auto, unfolding(crate::specs::Said::said_of))]
fn line_said(alloc: Global, line: &str) -> Result<Option<Command>, LineError>
    ensures { ReadsLine line.now result }
{
    if line.is_empty() {
        return Ok(None);
    }
    match command_of(alloc, line) {
        Ok(command) => Ok(Some(command)),
        Err(error) => Err(error),
    }
}
