// The list type that contracts see: a vector whose items are its model.
ghost use Rattle.std.specs.Prelude.{◌≡◌, ◌<◌, ◌++◌, ◌∷◌, [], length, take, IfOk, OnOk, OnErr, ◌==◌};

use crate::no_memory::NoMemory;
use std::alloc::Global;
use std::marker::Model;

/// A list with its `Vec` hidden. Contracts see the list of its items.
#[derive(Debug, Drop)]
pub struct Items<T> {
    items: Vec<T>,
}

impl<T> Model for Items<T> {
    ghost use Rattle.std.specs.Prelude.{List};

    ghost Value = { List T };

    ghost view = { λ s. s.items.items };
}

impl<T> Items<T> {
    /// The empty list, which takes no memory.
    pub fn new(alloc: Global) -> Items<T>
        ensures { result ≡ [] }
    {
        Items {
            items: Vec::new(alloc),
        }
    }

    /// The items of a vector. The vector's memory is reused.
    pub fn from_vec(items: Vec<T>) -> Items<T>
        ensures { result ≡ items.items }
    {
        Items { items }
    }

    pub fn into_vec(self) -> Vec<T>
        ensures { result.items ≡ self }
    {
        let Items { items } = self;
        items
    }

    pub fn len(&self) -> usize
        ensures { result ≡ length self.now }
    {
        self.items.len()
    }

    pub fn is_empty(&self) -> bool
        ensures { result ≡ (length self.now == 0) }
    {
        self.items.is_empty()
    }

    pub fn as_slice(&self) -> &[T]
        ensures { result.now ≡ self.now }
    {
        self.items.as_slice()
    }

    /// Removes the first item and returns it.
    pub fn remove_first(&mut self) -> T
        requires { 0 < length self.old }
        ensures { self.old ≡ result ∷ self.new }
    {
        self.items.remove(0)
    }
}

impl<T: Drop> Items<T> {
    /// Appends an item. If memory is refused the list is unchanged.
    pub fn push(&mut self, item: T) -> Result<(), NoMemory>
        ensures ok { OnOk result (self.new ≡ self.old ++ item ∷ []) }
        ensures err { OnErr result (self.new ≡ self.old) }
    {
        self.items.push(item)?;
        Ok(())
    }

    /// Drops all items and keeps their memory.
    pub fn clear(&mut self)
        ensures { self.new ≡ [] }
    {
        self.items.clear();
    }

    /// Keeps the first `count` items.
    pub fn truncate(&mut self, count: usize)
        ensures { self.new ≡ take count self.old }
    {
        self.items.truncate(count);
    }
}

impl<T: Copy> Items<T> {
    /// Appends the items of another list. If memory is refused the list is unchanged.
    pub fn append(&mut self, other: &[T]) -> Result<(), NoMemory>
        ensures ok { OnOk result (self.new ≡ self.old ++ other.now) }
        ensures err { OnErr result (self.new ≡ self.old) }
    {
        self.items.extend_from_slice(other)?;
        Ok(())
    }

    /// The items of one list followed by those of another.
    pub fn concat(alloc: Global, first: &[T], second: &[T]) -> Result<Items<T>, NoMemory>
        ensures { IfOk result (λ both. both ≡ first.now ++ second.now) }
    {
        let mut both = Items::new(alloc);
        both.append(first)?;
        both.append(second)?;
        Ok(both)
    }

    /// A copy of the list.
    pub fn copy(&self, alloc: Global) -> Result<Items<T>, NoMemory>
        ensures { IfOk result (λ c. c ≡ self.now) }
    {
        let mut copy = Items::new(alloc);
        copy.append(self.as_slice())?;
        Ok(copy)
    }
}
