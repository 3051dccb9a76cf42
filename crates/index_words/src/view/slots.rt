// The slots of a view, and what it has found in other passes' sections.
use key_map::{Items, NoMemory};
use std::alloc::Global;

/// Node slots and entry slots.
#[derive(Drop)]
pub struct Slots {
    pub nodes: Items<u32>,
    pub entries: Items<u32>,
}

/// A section word as it was found.
#[derive(Clone, Copy, Debug, PartialEq, Eq)]
pub struct SectionFound {
    /// The pass whose section word it is.
    pub pass: u32,
    pub word: u64,
}

/// What was found in other passes' sections since a wait began.
#[derive(Drop)]
pub struct Looks {
    /// The odd words that were found of passes that had not been passed yet, one for each look, in the order of the
    /// looks.
    pub found: Items<SectionFound>,
    /// The passes that have been outside a section since the wait began.
    pub passed: Items<u32>,
}

impl Slots {
    ghost use Rattle.std.specs.Prelude.{◌≡◌, ◌++◌, ◌==◌, ◌&&◌, OnOk, OnErr, IfOk, length};
    ghost use Rattle.index_words.specs.Views.{no_slots};

    /// No slots. It takes no memory.
    pub fn none(alloc: Global) -> Slots
        ensures { result ≡ no_slots }
    {
        Slots {
            nodes: Items::new(alloc),
            entries: Items::new(alloc),
        }
    }

    /// Whether there is neither a node nor an entry.
    pub fn is_empty(&self) -> bool
        ensures { result ≡ (length self.now.nodes == 0 && length self.now.entries == 0) }
    {
        self.nodes.is_empty() && self.entries.is_empty()
    }

    /// Appends the slots of another list to these. If memory is refused they are unchanged.
    pub fn append(&mut self, other: &Slots) -> Result<(), NoMemory>
        ensures ok { OnOk result (self.new ≡ record { nodes = self.old.nodes ++ other.now.nodes; entries = self.old.entries ++ other.now.entries }) }
        ensures err { OnErr result (self.new ≡ self.old) }
    {
        let count = self.nodes.len();
        self.nodes.append(other.nodes.as_slice())?;
        if self.entries.append(other.entries.as_slice()).is_err() {
            self.nodes.truncate(count);
            return Err(NoMemory);
        }
        Ok(())
    }

    /// The slots of one list followed by those of another.
    pub fn concat(alloc: Global, first: &Slots, second: &Slots) -> Result<Slots, NoMemory>
        ensures { IfOk result (λ c. c ≡ record { nodes = first.now.nodes ++ second.now.nodes; entries = first.now.entries ++ second.now.entries }) }
    {
        let nodes = Items::concat(alloc, first.nodes.as_slice(), second.nodes.as_slice())?;
        let entries = Items::concat(alloc, first.entries.as_slice(), second.entries.as_slice())?;
        Ok(Slots { nodes, entries })
    }
}

impl Looks {
    ghost use Rattle.std.specs.Prelude.{◌≡◌};
    ghost use Rattle.index_words.specs.Views.{no_looks};

    /// No looks. It takes no memory.
    pub fn none(alloc: Global) -> Looks
        ensures { result ≡ no_looks }
    {
        Looks {
            found: Items::new(alloc),
            passed: Items::new(alloc),
        }
    }
}
