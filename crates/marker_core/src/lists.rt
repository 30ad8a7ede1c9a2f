// A list, as states and views hold it.

ghost use Rattle.std.specs.Prelude.{◌≡◌, ◌<◌, [], ◌∷◌, ◌++◌, length, OnOk, if◌then◌else◌, slice_set};

use gc_graph::NoMemory;
use std::alloc::Global;
use std::marker::Model;

/// A list of values. Contracts see it as a list, inside other values too.
#[derive(Drop)]
pub struct List<T> {
    /// The items, for those who change more than one.
    pub items: Vec<T>,
}

impl<T> Model for List<T> {
    ghost use Rattle.std.specs.Prelude.{List};

    ghost Value = { List T };

    ghost view = { λ l. l.items.items };
}

impl<T> List<T> {
    /// The empty list. Its later growth takes memory from `alloc`.
    pub fn new(alloc: Global) -> List<T>
        ensures { result ≡ [] }
    {
        List {
            items: Vec::new(alloc),
        }
    }

    /// The items as a slice.
    pub fn as_slice(&self) -> &[T]
        ensures { result.now ≡ self.now }
    {
        self.items.as_slice()
    }
}

impl<T: Drop> List<T> {
    /// Adds an item at the end.
    pub fn push(&mut self, item: T) -> Result<(), NoMemory>
        ensures { OnOk result (self.new ≡ self.old ++ item ∷ []) }
    {
        self.items.push(item)?;
        Ok(())
    }

    /// Adds an item at the end, where it is told to.
    pub fn push_if(&mut self, joins: bool, item: T) -> Result<(), NoMemory>
        ensures { OnOk result (self.new ≡ (if joins then self.old ++ item ∷ [] else self.old)) }
    {
        if joins {
            self.items.push(item)?;
        }
        Ok(())
    }

    /// Writes an item over the one at a position; past the end nothing changes.
    pub fn set(&mut self, at: usize, item: T)
        ensures { self.new ≡ slice_set self.old at item }
    {
        if at < self.items.len() {
            self.items[at] = item;
        }
    }

    /// Takes all items out.
    pub fn clear(&mut self)
        ensures { self.new ≡ [] }
    {
        self.items.clear();
    }
}

impl<T> From<Vec<T>> for List<T> {
    ghost from_gives = { λ v l. l ≡ v.items };

    fn from(items: Vec<T>) -> List<T> {
        List { items }
    }
}

impl<T> From<List<T>> for Vec<T> {
    ghost from_gives = { λ l v. v.items ≡ l };

    fn from(list: List<T>) -> Vec<T> {
        list.items
    }
}
