// The shelf: molecules by the numbers of their records, with their screens and postings.
ghost use Rattle.std.specs.Prelude.{◌≡◌, ◌+◌, ◌*◌, ◌/◌, ◌≤◌, ◌<◌, [], true, false, IfSome, IfNone, IfOk, OnOk, Some};
ghost use Rattle.mk_rows.specs.Rows.{holds, item_at, IsGreatest, IsLeastFrom, NoneFrom, put_in_order, replaced, without};
ghost use Rattle.mk_index.specs.Postings.{HaveScreens, IsNextCandidate, IsPosting, LooksFor, NoCandidate};
ghost use Rattle.mk_model.specs.Screens.{IsScreenOf};

use crate::looking::next_place;
use crate::posted::posted_rows;
use crate::screens::{change_screen, put_screen, take_screen};
use mk_model::{Mol, Steps};
use mk_rows::ByNumber;
use mk_screen::{Screen, screen_of};
use mk_text::Memory;
use std::alloc::{AllocError, Global};
use std::marker::Model;
use std::sync::ledger::Ledger;

/// Molecules by rising number, each with its screen, and for each of 512 bits the rows that have it.
#[derive(Debug, Drop)]
pub struct Shelf {
    rows: ByNumber<Mol>,
    screens: Vec<Screen>,
    columns: Vec<u64>,
}

impl Model for Shelf {
    ghost use Rattle.std.specs.Prelude.{◌-◌, ◌*◌, ◌/◌, min, length, vec_capacity};
    ghost use Rattle.mk_model.specs.Molecules.{Molecule};
    ghost use Rattle.mk_rows.specs.Rows.{Rows};
    ghost use Rattle.mk_index.specs.Shelf.{IsKept};

    ghost Value = { Rows Molecule };

    ghost view = { λ s. record {
      rows = s.rows.rows;
      spare = min s.rows.spare (min (vec_capacity s.screens - length s.rows.rows) (64 * (vec_capacity s.columns / 512) - length s.rows.rows));
    } };

    ghost invariant = { λ s. IsKept s.rows.rows s.screens.items s.columns.items };
}

impl Shelf {
    /// No molecules. It takes no memory.
    pub fn new(alloc: Global) -> Shelf
        ensures { result.rows ≡ [] }
    {
        Shelf {
            rows: ByNumber::new(alloc),
            screens: Vec::new(alloc),
            columns: Vec::new(alloc),
        }
    }

    /// Makes room for so many more, among the rows and for each bit.
    pub fn reserve(&mut self, more: usize) -> Result<(), Memory>
        ensures spare { OnOk result (more ≤ self.new.spare) }
        ensures rows { self.new.rows ≡ self.old.rows }
        ensures kept { self.old.spare ≤ self.new.spare }
    {
        let Some(words) = words_for(self.screens.len(), more) else {
            return Err(AllocError);
        };
        self.rows.reserve(more)?;
        self.screens.reserve(more)?;
        self.columns
            .reserve(words.saturating_sub(self.columns.len()))?;
        Ok(())
    }

    /// Puts a molecule under a number that isn't held. It takes at most 1 from the room to spare,
    /// and no memory.
    pub fn insert(&mut self, number: u32, mol: Mol)
        requires spare { 1 ≤ self.old.spare }
        requires new { holds number self.old.rows ≡ false }
        ensures rows { self.new.rows ≡ put_in_order (record { number = number; item = mol }) self.old.rows }
        ensures kept { self.old.spare ≤ self.new.spare + 1 }
    {
        let at = self.rows.place(number);
        let screen = screen_of(&mol);
        self.rows.insert(number, mol);
        put_screen(&mut self.screens, &mut self.columns, at, screen);
    }

    /// Puts a molecule in place of the one under its number, which it gives back.
    pub fn replace(&mut self, number: u32, mol: Mol) -> Mol
        requires held { holds number self.old.rows ≡ true }
        ensures former { item_at number self.old.rows ≡ Some result }
        ensures rows { self.new.rows ≡ replaced (record { number = number; item = mol }) self.old.rows }
        ensures kept { self.new.spare ≡ self.old.spare }
    {
        let at = self.rows.place(number);
        let screen = screen_of(&mol);
        let former = self.rows.replace(number, mol);
        change_screen(&mut self.screens, &mut self.columns, at, screen);
        former
    }

    /// Takes the molecule under a number out. Where the number is held there is room for one more
    /// behind it.
    pub fn remove(&mut self, number: u32) -> Option<Mol>
        ensures item { item_at number self.old.rows ≡ result }
        ensures rows { self.new.rows ≡ without number self.old.rows }
        ensures freed { IfSome result (λ _. self.old.spare + 1 ≤ self.new.spare) }
        ensures kept { IfNone result (self.new.spare ≡ self.old.spare) }
    {
        if !self.rows.holds(number) {
            return None;
        }
        let at = self.rows.place(number);
        take_screen(&mut self.screens, &mut self.columns, at);
        self.rows.remove(number)
    }

    pub fn holds(&self, number: u32) -> bool
        ensures { result ≡ holds number self.now.rows }
    {
        self.rows.holds(number)
    }

    pub fn get(&self, number: u32) -> Option<&Mol>
        ensures some { IfSome result (λ mol. item_at number self.now.rows ≡ Some mol.now) }
        ensures none { IfNone result (holds number self.now.rows ≡ false) }
    {
        self.rows.get(number)
    }

    /// The least number that is held, from there on.
    pub fn next_row(&self, from: u32) -> Option<u32>
        ensures some { IfSome result (IsLeastFrom from self.now.rows) }
        ensures none { IfNone result (NoneFrom from self.now.rows) }
    {
        self.rows.next_row(from)
    }

    /// The greatest number that is held.
    pub fn last_row(&self) -> Option<u32>
        ensures some { IfSome result (IsGreatest self.now.rows) }
        ensures none { IfNone result (self.now.rows ≡ []) }
    {
        self.rows.last_row()
    }

    /// The screen of the molecule under a number that is held.
    pub fn screen(&self, number: u32) -> &Screen
        requires { holds number self.now.rows ≡ true }
        ensures { IfSome (item_at number self.now.rows) (λ mol. IsScreenOf mol result.now) }
    {
        &self.screens[self.rows.place(number)]
    }

    /// The numbers of the records whose screens have a bit, rising.
    pub fn posting(&self, alloc: Global, bit: u32) -> Result<Vec<u32>, Memory>
        requires { bit < 512 }
        ensures { IfOk result (λ numbers. IsPosting self.now.rows bit numbers.items) }
    {
        let numbers = posted_rows(alloc, self.rows.rows(), self.columns.as_slice(), bit)?;
        Ok(numbers)
    }

    /// The least number that is held, from there on, whose screen covers the need. It looks at no
    /// screen that lacks a bit of the need.
    pub fn next_candidate<L: Ledger>(
        &self,
        need: &Screen,
        from: u32,
        looks: &mut Steps<L>,
    ) -> Option<u32>
        ensures some { IfSome result (IsNextCandidate self.now.rows need.now from) }
        ensures none { IfNone result (NoCandidate self.now.rows need.now from) }
        ensures screens { HaveScreens self.now.rows }
        ensures looks { LooksFor self.now.rows need.now from result looks.old looks.new }
    {
        let at = self.rows.place(from);
        let found = next_place(
            self.screens.as_slice(),
            self.columns.as_slice(),
            need,
            at,
            looks,
        );
        match found {
            Some(place) => Some(self.rows.number_at(place)),
            None => None,
        }
    }
}

// More rows than any memory holds.
const MOST_ROWS: usize = 1 << 48;

// How many words the columns of so many rows and so many more take. None where they are too many.
fn words_for(rows: usize, more: usize) -> Option<usize>
    ensures { IfSome result (λ words. rows + more ≤ 64 * (words / 512)) }
{
    let all = rows.checked_add(more)?.checked_add(63)?;
    if all > MOST_ROWS {
        return None;
    }
    Some(all / 64 * 512)
}
