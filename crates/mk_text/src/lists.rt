// Lists that contracts see as plain lists, whatever memory they hold to spare.
ghost use Rattle.std.specs.Prelude.{◌≡◌, ◌++◌, ◌∷◌, [], OnOk, OnErr};

use crate::Memory;
use std::alloc::Global;
use std::marker::Model;

/// A list of items.
#[derive(Debug, Drop)]
pub struct Listed<T> {
    items: Vec<T>,
}

impl<T> Model for Listed<T> {
    ghost use Rattle.std.specs.Prelude.{List};

    ghost Value = { List T };

    ghost view = { λ list. list.items.items };
}

impl<T> Listed<T> {
    /// The empty list. It takes no memory.
    pub fn new(alloc: Global) -> Listed<T>
        ensures { result ≡ [] }
    {
        Listed {
            items: Vec::new(alloc),
        }
    }

    /// The items of a `Vec`, which is taken over as it is.
    pub fn of(items: Vec<T>) -> Listed<T>
        ensures { result ≡ items.items }
    {
        Listed { items }
    }

    /// Gives the `Vec` back, with the room that it has to spare.
    pub fn into_vec(self) -> Vec<T>
        ensures { result.items ≡ self }
    {
        let Listed { items } = self;
        items
    }

    pub fn as_slice(&self) -> &[T]
        ensures { result.now ≡ self.now }
    {
        self.items.as_slice()
    }
}

impl<T: Drop> Listed<T> {
    pub fn push(&mut self, item: T) -> Result<(), Memory>
        ensures ok { OnOk result (self.new ≡ self.old ++ item ∷ []) }
        ensures err { OnErr result (self.new ≡ self.old) }
    {
        self.items.push(item)?;
        Ok(())
    }
}

/// A list of bytes.
pub type Bytes = Listed<u8>;

/// A list of numbers.
pub type Numbers = Listed<u32>;

/// Where a search goes on: a list of numbers that stands before, between or behind the keys.
pub type Place = Listed<u32>;
