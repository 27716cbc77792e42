// Items by rising number, and the room that is left.
ghost use Rattle.std.specs.Prelude.{◌≡◌, ◌+◌, ◌<◌, ◌≤◌, [], true, false, IfSome, IfNone, OnOk, Some, length};
ghost use Rattle.mk_rows.specs.Rows.{holds, item_at, IsGreatest, IsLeastFrom, NoneFrom, IsRising, number_of, place_of, put_in_order, replaced, without};

use mk_text::Memory;
use std::alloc::Global;
use std::marker::Model;
use std::mem;

/// An item with its number.
#[derive(Debug, Drop)]
pub struct Numbered<T> {
    pub number: u32,
    pub item: T,
}

/// Items by rising number, each number once.
#[derive(Debug, Drop)]
pub struct ByNumber<T> {
    rows: Vec<Numbered<T>>,
}

impl<T> Model for ByNumber<T> {
    ghost use Rattle.std.specs.Prelude.{◌-◌, vec_len, vec_capacity};
    ghost use Rattle.mk_rows.specs.Rows.{IsRising, Rows};

    ghost Value = { Rows T };

    ghost view = { λ map. record { rows = map.rows.items; spare = vec_capacity map.rows - vec_len map.rows } };

    ghost invariant = { λ map. IsRising map.rows.items };
}

impl<T: Drop> ByNumber<T> {
    /// No items. It takes no memory.
    pub fn new(alloc: Global) -> ByNumber<T>
        ensures { result.rows ≡ [] }
    {
        ByNumber {
            rows: Vec::new(alloc),
        }
    }

    /// Makes room for so many more.
    pub fn reserve(&mut self, more: usize) -> Result<(), Memory>
        ensures spare { OnOk result (more ≤ self.new.spare) }
        ensures rows { self.new.rows ≡ self.old.rows }
        ensures kept { self.old.spare ≤ self.new.spare }
    {
        self.rows.reserve(more)?;
        Ok(())
    }

    /// Puts an item under a number that isn't held. It takes at most 1 from the room to spare, and
    /// no memory.
    pub fn insert(&mut self, number: u32, item: T)
        requires spare { 1 ≤ self.old.spare }
        requires new { holds number self.old.rows ≡ false }
        ensures rows { self.new.rows ≡ put_in_order (record { number = number; item = item }) self.old.rows }
        ensures kept { self.old.spare ≤ self.new.spare + 1 }
    {
        let at = self.place(number);
        let _ = self.rows.insert(at, Numbered { number, item });
    }

    /// Puts an item in place of the one under its number, which it gives back.
    pub fn replace(&mut self, number: u32, item: T) -> T
        requires held { holds number self.old.rows ≡ true }
        ensures former { item_at number self.old.rows ≡ Some result }
        ensures rows { self.new.rows ≡ replaced (record { number = number; item = item }) self.old.rows }
        ensures kept { self.new.spare ≡ self.old.spare }
    {
        let at = self.place(number);
        mem::replace(&mut self.rows[at].item, item)
    }

    /// Takes the item under a number out. Where the number is held there is room for one more
    /// behind it.
    pub fn remove(&mut self, number: u32) -> Option<T>
        ensures item { item_at number self.old.rows ≡ result }
        ensures rows { self.new.rows ≡ without number self.old.rows }
        ensures freed { IfSome result (λ _. self.old.spare + 1 ≤ self.new.spare) }
        ensures kept { IfNone result (self.new.spare ≡ self.old.spare) }
    {
        if !self.holds(number) {
            return None;
        }
        let at = self.place(number);
        Some(self.rows.remove(at).item)
    }

    pub fn holds(&self, number: u32) -> bool
        ensures { result ≡ holds number self.now.rows }
    {
        let at = self.place(number);
        if at >= self.rows.len() {
            return false;
        }
        self.rows[at].number == number
    }

    pub fn get(&self, number: u32) -> Option<&T>
        ensures some { IfSome result (λ item. item_at number self.now.rows ≡ Some item.now) }
        ensures none { IfNone result (holds number self.now.rows ≡ false) }
    {
        if !self.holds(number) {
            return None;
        }
        Some(&self.rows[self.place(number)].item)
    }

    /// The least number that is held, from there on.
    pub fn next_row(&self, from: u32) -> Option<u32>
        ensures some { IfSome result (IsLeastFrom from self.now.rows) }
        ensures none { IfNone result (NoneFrom from self.now.rows) }
    {
        let at = self.place(from);
        if at >= self.rows.len() {
            return None;
        }
        Some(self.rows[at].number)
    }

    /// The greatest number that is held.
    pub fn last_row(&self) -> Option<u32>
        ensures some { IfSome result (IsGreatest self.now.rows) }
        ensures none { IfNone result (self.now.rows ≡ []) }
    {
        let Some(row) = self.rows.last() else {
            return None;
        };
        Some(row.number)
    }

    /// All rows, by rising number.
    pub fn rows(&self) -> &[Numbered<T>]
        ensures rows { result.now ≡ self.now.rows }
        ensures rising { IsRising result.now }
    {
        self.rows.as_slice()
    }

    /// The number of the row at a place.
    pub fn number_at(&self, place: usize) -> u32
        requires { place < length self.now.rows }
        ensures number { result ≡ number_of self.now.rows place }
        ensures rising { IsRising self.now.rows }
    {
        self.rows[place].number
    }

    /// How many rows are below a number.
    pub fn place(&self, number: u32) -> usize
        ensures place { result ≡ place_of number self.now.rows }
        ensures within { result ≤ length self.now.rows }
        ensures rising { IsRising self.now.rows }
    {
        self.rows.partition_point(|row| row.number < number)
    }
}
