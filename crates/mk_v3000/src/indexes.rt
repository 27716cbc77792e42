// The indexes of the atoms that have been read, in order.
ghost use Rattle.std.specs.Prelude.{◌≡◌, ◌≤◌, ◌++◌, ◌∷◌, [], false, length, OnOk};
ghost use Rattle.mk_v3000.specs.Twin.{has_index, place_from};
ghost use Rattle.mk_v3000.specs.Indexes.{is_counted, is_next};

use indexmap::IndexSet;
use mk_text::Memory;
use std::alloc::Global;
use std::marker::Model;

/// Indexes in order, no two of them the same. The first ones, where they are 1, 2, 3 and so on, are
/// counted; the others are listed, so that each is found without a look at all.
#[derive(Drop)]
pub struct Indexes {
    counted: usize,
    others: IndexSet<i32>,
}

impl Model for Indexes {
    ghost use Rattle.std.specs.Prelude.{List, ℤ, ◌++◌};
    ghost use Rattle.mk_v3000.specs.Indexes.{numbers_from};

    ghost Value = { List ℤ };

    ghost view = { λ a. numbers_from 1 a.counted ++ a.others.keys };
}

// Whether the index is one of 1 to `counted`.
fn is_counted(counted: usize, index: i32) -> bool
    ensures { result ≡ is_counted counted index }
{
    index >= 1 && index as usize <= counted
}

// Whether the index is the number behind `counted`.
fn is_next(counted: usize, index: i32) -> bool
    ensures { result ≡ is_next counted index }
{
    index >= 1 && index as usize - 1 == counted
}

impl Indexes {
    pub fn new(alloc: Global) -> Indexes
        ensures { result ≡ [] }
    {
        Indexes {
            counted: 0,
            others: IndexSet::new(alloc),
        }
    }

    /// How many there are.
    pub fn size(&self) -> usize
        requires { length self.now ≤ 999 }
        ensures { result ≡ length self.now }
    {
        self.counted + self.others.len()
    }

    /// Whether one of them is this.
    pub fn has(&self, index: i32) -> bool
        ensures { result ≡ has_index self.now index }
    {
        if is_counted(self.counted, index) {
            return true;
        }
        self.others.contains(&index)
    }

    /// The place of the atom with this index, or 0.
    pub fn place_of(&self, index: i32) -> i32
        requires { length self.now ≤ 999 }
        ensures { result ≡ place_from 1 self.now index }
    {
        if is_counted(self.counted, index) {
            return index;
        }
        match self.others.get_index_of(&index) {
            Some(at) => (self.counted + at + 1) as i32,
            None => 0,
        }
    }

    /// Puts an index that is none of them behind the last.
    pub fn push(&mut self, index: i32) -> Result<(), Memory>
        requires { has_index self.old index ≡ false }
        ensures { OnOk result (self.new ≡ self.old ++ index ∷ []) }
    {
        if self.others.is_empty() && is_next(self.counted, index) {
            self.counted += 1;
            return Ok(());
        }
        self.others.insert(index)?;
        Ok(())
    }
}
