// Names as they are read: most that come again are not kept again. After the last line they are put in byte order.
ghost use Rattle.std.specs.Prelude.{◌≡◌, ◌<◌, ◌≤◌, ◌++◌, ◌∷◌, [], length, map, All, IfOk, OnOk, OnErr, IsOkUnless, slice_index};
ghost use Rattle.key_names.specs.Ranks.{most_names};
ghost use Rattle.line_grammar.specs.declared.line_error.LineError.TheVariants.{NoMemory as OutOfMemory};
ghost use Rattle.request_lines.specs.Interned.{AreNumbered, IsInterned, IsKnownAs, named};

use crate::known::Known;
use crate::leads::{Numbered, sorted, sorted_on_threads};
use crate::name_hints::{NameHint, if_kept_as};
use crate::names::Names;
use crate::placing::{put_in_order, ranks_of};
use key_names::{NoMemory, Text};
use line_grammar::LineError;
use std::alloc::{AllocError, Global};
use std::marker::Model;
use std::thread::Threads;

/// The names of the lines so far.
///
/// A name that is known at the one place of a table where its hash leads is not kept again; any other one is, and
/// takes the place. All that are kept are sorted once, after the last line, and equal names then stand together. So
/// no choice of names makes the reading slow: at worst each line's name is kept.
#[derive(Drop)]
pub(crate) struct Interner {
    // The names that are kept, in the order in which they came. A name's number is its place among them.
    names: Vec<Text>,
    // The number of each line's name.
    order: Vec<usize>,
    // Where a name may have been kept. Each hash has one place, without a search: names chosen by the hash, whose
    // seed is fixed, are only kept once for each line. A table that is searched would need a hash for which nobody
    // can choose names.
    known: Known,
}

impl Model for Interner {
    ghost use Rattle.std.specs.Prelude.{List, ℕ};
    ghost use Rattle.request_lines.specs.Interned.{named, IsInterned};

    ghost Value = { List (List ℕ) };

    ghost view = { λ i. named i.names.items i.order.items };

    ghost invariant = { λ i. IsInterned i.names.items i.order.items };
}

impl Interner {
    /// Before the first line.
    pub(crate) fn new(alloc: Global) -> Interner
        ensures { result ≡ [] }
    {
        Interner {
            names: Vec::new(alloc),
            order: Vec::new(alloc),
            known: Known::none(alloc),
        }
    }

    /// Makes room, if available, for so many more kept names and for the names of so many more lines.
    pub(crate) fn make_room(&mut self, names: usize, lines: usize)
        ensures { self.new ≡ self.old }
    {
        // Without the room the lists grow as they are filled.
        let _ = self.names.reserve(names);
        let _ = self.order.reserve(lines);
    }

    /// The number that a name with this hash may have.
    pub(crate) fn number_of(&self, hash: u64) -> Option<usize> {
        self.known.number_of(hash)
    }

    /// How many bytes the name of this number has: 0 where there is none.
    pub(crate) fn len_of(&self, number: usize) -> usize {
        self.names.get(number).map_or(0, |name| name.bytes().len())
    }

    /// Adds the name of the next line, and returns the number that it is kept under. A hint for another name only
    /// costs time.
    pub(crate) fn push(
        &mut self,
        alloc: Global,
        name: &Text,
        hint: NameHint,
    ) -> Result<usize, LineError>
        ensures pushed { OnOk result (self.new ≡ self.old ++ name.now ∷ []) }
        ensures memory { IsOkUnless result OutOfMemory }
    {
        self.order.reserve(1)?;
        self.known.make(alloc)?;
        let number = number_of(alloc, &mut self.names, &mut self.known, name, hint)?;
        self.order.push_reserved(number);
        Ok(number)
    }

    /// Adds a name, and returns the number that it is kept under. The caller knows the number that an equal name may
    /// have; that name is compared.
    pub(crate) fn push_known(
        &mut self,
        alloc: Global,
        name: &Text,
        number: Option<usize>,
    ) -> Result<usize, NoMemory>
        ensures { OnOk result (self.new ≡ self.old ++ name.now ∷ []) }
    {
        self.order.reserve(1)?;
        let number = known_or_next(alloc, &mut self.names, name, number)?;
        self.order.push_reserved(number);
        Ok(number)
    }

    /// The names of all lines, with those that are kept in byte order, and the rank of each number.
    pub(crate) fn ranked(self, alloc: Global) -> Result<(Names, Vec<usize>), NoMemory>
        requires { length self ≤ most_names }
        ensures { IfOk result (λ names. names.0 ≡ self) }
    {
        let Interner {
            names,
            order,
            known: _,
        } = self;
        let entries = sorted(alloc, names.as_slice())?;
        ranked_by(alloc, names, order.as_slice(), entries.as_slice())
    }

    /// As `ranked`. Many names are sorted on threads.
    pub(crate) fn ranked_on_threads<Rt: Threads + Sync>(
        self,
        rt: &Rt,
        alloc: Global,
    ) -> Result<(Names, Vec<usize>), NoMemory>
        requires { length self ≤ most_names }
        ensures { IfOk result (λ names. names.0 ≡ self) }
    {
        let Interner {
            names,
            order,
            known: _,
        } = self;
        let entries = sorted_on_threads(rt, alloc, names.as_slice())?;
        ranked_by(alloc, names, order.as_slice(), entries.as_slice())
    }
}

// The names of the lines that have these numbers, and the rank of each number. The entries are the numbers in the byte
// order of the names.
fn ranked_by(
    alloc: Global,
    mut names: Vec<Text>,
    order: &[usize],
    entries: &[Numbered],
) -> Result<(Names, Vec<usize>), NoMemory>
    requires interned { IsInterned names.items order.now }
    requires few { length order.now ≤ most_names }
    requires numbered { AreNumbered names.items entries.now }
    ensures { IfOk result (λ ranked. ranked.0 ≡ named names.items order.now) }
{
    let places = put_in_order(alloc, &mut names, entries)?;
    let ranks = ranks_of(alloc, &names, entries)?;
    let order = at_places(alloc, order, &places)?;
    Ok((Names::of(names, order), ranks))
}

// The number of a name: that of the hint or the one that the table knows, where an equal name has it, or else the next
// one, which it then has.
fn number_of(
    alloc: Global,
    names: &mut Vec<Text>,
    known: &mut Known,
    name: &Text,
    hint: NameHint,
) -> Result<usize, NoMemory>
    ensures known { IfOk result (IsKnownAs names.old.items names.new.items name.now) }
    ensures unchanged { OnErr result (names.new.items ≡ names.old.items) }
{
    if let Some(number) = hint.number_of(names.as_slice(), name) {
        return Ok(number);
    }
    // The name is looked up again: it may have been kept after the hint was made.
    let hash = hint.hash();
    let number = known_or_next(alloc, names, name, known.number_of(hash))?;
    known.note(hash, number);
    Ok(number)
}

// The number of a name: the known one, where an equal name has it, or else the next one, which it then has.
fn known_or_next(
    alloc: Global,
    names: &mut Vec<Text>,
    name: &Text,
    known: Option<usize>,
) -> Result<usize, NoMemory>
    ensures known { IfOk result (IsKnownAs names.old.items names.new.items name.now) }
    ensures unchanged { OnErr result (names.new.items ≡ names.old.items) }
{
    if let Some(number) = known
        && let Some(number) = if_kept_as(names.as_slice(), name, number)
    {
        return Ok(number);
    }
    let count = names.len();
    names.push(name.copy(alloc)?)?;
    Ok(count)
}

// The places of these numbers.
fn at_places(alloc: Global, numbers: &[usize], places: &[usize]) -> Result<Vec<usize>, AllocError>
    requires { All (λ number. number < length places.now) numbers.now }
    ensures { IfOk result (λ found. found.items ≡ map (slice_index places.now) numbers.now) }
{
    let mut found = Vec::with_capacity(alloc, numbers.len())?;
    for number in numbers {
        found.push(places[*number])?;
    }
    Ok(found)
}
