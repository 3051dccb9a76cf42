// The names of a session's lines. Where the session was read, most that come again are kept once.
ghost use Rattle.std.specs.Prelude.{◌≡◌, ◌<◌, ◌≤◌, ℕ, List, [], length, All, IfOk, IfErr};
ghost use Rattle.key_names.specs.Names.{HoldsEachOnce, IsFine, name_at};
ghost use Rattle.key_names.specs.Ranks.{most_names};
ghost use Rattle.request_lines.specs.Interned.{IsInterned, named};

use key_map::Items;
use key_names::{Directory, MAX_NAMES, NamesError, NoMemory, Text};
use std::alloc::Global;
use std::marker::Model;
use std::mem;

/// Names in the order of the lines, where a name may stand more than once, and at most `MAX_NAMES` stand, so that a
/// directory can have them. Contracts see the list of them.
#[derive(Debug, Drop)]
pub struct Names {
    // With `order` the names that are kept, in byte order; without it a name for each line.
    names: Vec<Text>,
    // For each line its name's place among those that are kept.
    order: Option<Items<usize>>,
}

impl Model for Names {
    ghost use Rattle.std.specs.Prelude.{List, ℕ};
    ghost use Rattle.request_lines.specs.Interned.{AreKept, names_kept};

    ghost Value = { List (List ℕ) };

    ghost view = { λ n. names_kept n.names.items n.order };

    ghost invariant = { λ n. AreKept n.names.items n.order };
}

impl Names {
    /// No names.
    pub fn new(alloc: Global) -> Names
        ensures { result ≡ [] }
    {
        Names {
            names: Vec::new(alloc),
            order: None,
        }
    }

    /// The names of a vector, one for each line, whose memory is reused. `TooMany`, where they are more than
    /// `MAX_NAMES`, is the only error.
    pub fn from_vec(names: Vec<Text>) -> Result<Names, NamesError>
        ensures names { IfOk result (λ held. held ≡ names.items) }
        ensures few { IfOk result (λ _. length names.items ≤ most_names) }
        ensures refused { IfErr result (λ error. (error ≡ NamesError.TooMany) × most_names < length names.items) }
    {
        if names.len() > MAX_NAMES {
            return Err(NamesError::TooMany);
        }
        Ok(Names { names, order: None })
    }

    /// A name for each line. Where they came as a vector it is that one, and no memory is taken; where a session was
    /// read each line gets a copy of its own.
    pub fn into_vec(self, alloc: Global) -> Result<Vec<Text>, NoMemory>
        ensures { IfOk result (λ names. names.items ≡ self) }
    {
        let Names { names, order } = self;
        match order {
            None => Ok(names),
            Some(order) => names_at(alloc, &names, order.as_slice()),
        }
    }

    /// The names with these places among those that are kept.
    pub(crate) fn of(kept: Vec<Text>, order: Vec<usize>) -> Names
        requires interned { IsInterned kept.items order.items }
        requires few { length order.items ≤ most_names }
        ensures { result ≡ named kept.items order.items }
    {
        Names {
            names: kept,
            order: Some(Items::from_vec(order)),
        }
    }

    /// How many names stand here, each as often as there are lines with it.
    pub fn len(&self) -> usize
        ensures { result ≡ length self.now }
    {
        match &self.order {
            None => self.names.len(),
            Some(order) => order.len(),
        }
    }

    /// The name of the line at this place, from 0.
    pub fn name(&self, place: usize) -> &Text
        requires { place < length self.now }
        ensures { result.now ≡ name_at self.now place }
    {
        match &self.order {
            None => &self.names[place],
            Some(order) => &self.names[order.as_slice()[place]],
        }
    }

    /// Takes the names out: none is left here.
    pub(crate) fn take(&mut self) -> Names
        ensures taken { result ≡ self.old }
        ensures none { self.new ≡ [] }
    {
        let none = Names::new(*self.names.allocator());
        mem::replace(self, none)
    }

    /// The directory of the names. They are sorted in place, so no memory is asked for, and `Directory::new` refuses
    /// neither a fine name nor as many names as may stand here.
    pub(crate) fn into_directory(self) -> Directory
        requires { All IsFine self }
        ensures { HoldsEachOnce self result }
    {
        let Names { names, order: _ } = self;
        directory_of(names)
    }

    /// The same, and the names stay: each that is kept is copied.
    pub fn directory(&self, alloc: Global) -> Result<Directory, NoMemory>
        requires { All IsFine self.now }
        ensures { IfOk result (HoldsEachOnce self.now) }
    {
        let names = copies(alloc, &self.names)?;
        Ok(directory_of(names))
    }
}

// The directory of names that it may have.
fn directory_of(names: Vec<Text>) -> Directory
    requires fine { All IsFine names.items }
    requires few { (held : List (List ℕ)) → HoldsEachOnce names.items held → length held ≤ most_names }
    ensures { HoldsEachOnce names.items result }
{
    match Directory::new(*names.allocator(), names) {
        Ok(dir) => dir,
        Err(_) => unreachable!(),
    }
}

// A copy of each name.
fn copies(alloc: Global, names: &[Text]) -> Result<Vec<Text>, NoMemory>
    ensures { IfOk result (λ copied. copied.items ≡ names.now) }
{
    let mut copied = Vec::with_capacity(alloc, names.len())?;
    for name in names {
        copied.push(name.copy(alloc)?)?;
    }
    Ok(copied)
}

// The names at these places.
fn names_at(alloc: Global, names: &[Text], places: &[usize]) -> Result<Vec<Text>, NoMemory>
    requires { All (λ place. place < length names.now) places.now }
    ensures { IfOk result (λ listed. listed.items ≡ named names.now places.now) }
{
    let mut listed = Vec::with_capacity(alloc, places.len())?;
    for place in places {
        listed.push(names[*place].copy(alloc)?)?;
    }
    Ok(listed)
}
