// The library, its readers, and one change of it at a time.
ghost use Rattle.std.specs.Prelude.{◌≡◌, ◌↔◌, ◌+◌, ◌≤◌, ◌++◌, ◌∷◌, [], true, false, IsTrue, IfSome, IfNone, OnErr, OnOk, Some};
ghost use Rattle.mk_rows.specs.Rows.{holds};
ghost use Rattle.mk_outside.specs.Tables.{after_change};
ghost use Rattle.mk_outside.specs.declared.tables.Change.TheVariants.{PutRecord, DropRecord};
ghost use Rattle.mk_library.specs.Records.{IsMoleculeOf, AreHeld, is_held, records_of, text_under};
ghost use Rattle.mk_library.specs.Library.{IsLibrary, IsSame, tables_of, IsLeastHeld, NoneHeld};
ghost use Rattle.mk_library.specs.Pending.{IsNumbered, KeepsLimits};
ghost use Rattle.mk_library.specs.Steps.{GoesBehind, LoadKeeps, bytes_of};
ghost use Rattle.mk_library.specs.StoredRows.{HasPlace};

use crate::FILE_BYTES;
use mk_index::Shelf;
use mk_model::Mol;
use mk_outside::{Bytes, Memory, RecordRow};
use mk_rows::{ByNumber, Numbered};
use std::alloc::Global;
use std::marker::Model;

// How much a library may hold.
const MOST_RECORDS: usize = 100_000;

const MOST_BYTES: usize = 134_217_728;

const MOST_NUMBER: usize = 999_999_999;

// Whether the texts have at most so many bytes together.
fn go_into(texts: &[Bytes], most: usize) -> bool
    ensures { IsTrue result ↔ (bytes_of texts.now ≤ most) }
{
    let mut left = most;
    for text in texts {
        let size = text.as_slice().len();
        if size > left {
            return false;
        }
        left -= size;
    }
    true
}

/// The texts of records and their molecules, by rising number, the number that comes next, and for
/// how many more records there is room.
#[derive(Debug, Drop)]
pub struct Library {
    texts: ByNumber<Bytes>,
    shelf: Shelf,
    bytes: usize,
    next: u32,
    room: usize,
}

impl Model for Library {
    ghost use Rattle.mk_library.specs.Records.{records_of};
    ghost use Rattle.mk_library.specs.Library.{HasRoom, IsKept, LibraryView};

    ghost Value = { LibraryView };

    ghost view = { λ l. record {
      records = records_of l.texts.rows;
      rows = l.shelf.rows;
      next_record = l.next;
      spare = l.room;
    } };

    ghost invariant = { λ l. IsKept l.texts.rows l.shelf.rows l.bytes l.next × HasRoom l.texts.spare l.shelf.spare l.room };
}

impl Library {
    /// A library without records, whose next number is 1. It takes no memory.
    pub fn new(alloc: Global) -> Library
        ensures records { result.records ≡ [] }
        ensures rows { result.rows ≡ [] }
        ensures next { result.next_record ≡ 1 }
    {
        Library::with_next(alloc, 1)
    }

    // A library without records, and with this next number.
    pub(crate) fn with_next(alloc: Global, next: u32) -> Library
        ensures records { result.records ≡ [] }
        ensures rows { result.rows ≡ [] }
        ensures next { result.next_record ≡ next }
    {
        Library {
            texts: ByNumber::new(alloc),
            shelf: Shelf::new(alloc),
            bytes: 0,
            next,
            room: 0,
        }
    }

    /// The text of a record.
    pub fn text(&self, number: u32) -> Option<&[u8]>
        ensures some { IfSome result (λ text. text_under number self.now.records ≡ Some text.now) }
        ensures none { IfNone result (is_held number self.now.records ≡ false) }
    {
        match self.texts.get(number) {
            Some(text) => Some(text.as_slice()),
            None => None,
        }
    }

    /// The molecules, by the numbers of their records. They are the filled molecules of the texts.
    pub fn shelf(&self) -> &Shelf
        ensures rows { result.now.rows ≡ self.now.rows }
        ensures held { AreHeld self.now.records result.now.rows }
        ensures kept { IsLibrary self.now }
    {
        &self.shelf
    }

    /// The least number that is held, from there on.
    pub fn next_held(&self, from: u32) -> Option<u32>
        ensures some { IfSome result (IsLeastHeld from self.now.records) }
        ensures none { IfNone result (NoneHeld from self.now.records) }
    {
        self.texts.next_row(from)
    }

    pub fn next_number(&self) -> u32
        ensures { result ≡ self.now.next_record }
    {
        self.next
    }

    /// The texts under their numbers, by rising number.
    pub fn texts(&self) -> &[Numbered<Bytes>]
        ensures texts { records_of result.now ≡ self.now.records }
        ensures kept { IsLibrary self.now }
    {
        self.texts.rows()
    }

    pub(crate) fn holds(&self, number: u32) -> bool
        ensures held { result ≡ is_held number self.now.records }
        ensures kept { IsLibrary self.now }
    {
        self.texts.holds(number)
    }

    // Whether the limits are kept where these texts are added.
    pub(crate) fn keeps(&self, texts: &[Bytes]) -> bool
        ensures keeps { result ≡ true → LoadKeeps self.now.records self.now.next_record texts.now }
        ensures full { result ≡ false → ¬ (LoadKeeps self.now.records self.now.next_record texts.now) }
        ensures kept { IsLibrary self.now }
    {
        let count = texts.len();
        if count > MOST_RECORDS - self.texts.rows().len() {
            return false;
        }
        if count > 0 && self.next as usize + count - 1 > MOST_NUMBER {
            return false;
        }
        go_into(texts, MOST_BYTES - self.bytes)
    }

    // Whether the limits are kept where this text takes the place of one that is held.
    pub(crate) fn keeps_over(&self, number: u32, text: &[u8]) -> bool
        requires { is_held number self.now.records ≡ true }
        ensures keeps { result ≡ true → KeepsLimits (PutRecord number text.now) (tables_of self.now) }
        ensures full { result ≡ false → ¬ (KeepsLimits (PutRecord number text.now) (tables_of self.now)) }
    {
        let Some(former) = self.texts.get(number) else {
            unreachable!()
        };
        let others = self.bytes - former.as_slice().len();
        text.len() <= MOST_BYTES - others
    }

    // Whether a stored row may stand behind those that are held.
    pub(crate) fn has_place(&self, row: &RecordRow) -> bool
        ensures place { result ≡ true → HasPlace self.now.next_record self.now.records row.now }
        ensures none { result ≡ false → ¬ (HasPlace self.now.next_record self.now.records row.now) }
    {
        let number = row.number;
        if number == 0 || number as usize > MOST_NUMBER || number >= self.next {
            return false;
        }
        if let Some(_held) = self.texts.next_row(number) {
            return false;
        }
        if self.texts.rows().len() >= MOST_RECORDS {
            return false;
        }
        let size = row.text.as_slice().len();
        if size > FILE_BYTES + 1 {
            return false;
        }
        size <= MOST_BYTES - self.bytes
    }

    // Makes room for so many more records. Where there is no memory for it, what is counted on stays
    // as it was.
    pub(crate) fn reserve(&mut self, more: usize) -> Result<(), Memory>
        ensures spare { OnOk result (more ≤ self.new.spare) }
        ensures kept { self.old.spare ≤ self.new.spare }
        ensures err { OnErr result (self.new.spare ≡ self.old.spare) }
        ensures same { IsSame self.old self.new }
    {
        self.texts.reserve(more)?;
        self.shelf.reserve(more)?;
        self.room = self.room.max(more);
        Ok(())
    }

    // Puts a record under a number that is held, or under the next one.
    pub(crate) fn put(&mut self, number: u32, text: Bytes, mol: Mol)
        requires numbered { IsNumbered (PutRecord number text) (tables_of self.old) }
        requires limits { KeepsLimits (PutRecord number text) (tables_of self.old) }
        requires room { 1 ≤ self.old.spare }
        requires molecule { IsMoleculeOf text mol }
        ensures tables { tables_of self.new ≡ after_change (PutRecord number text) (tables_of self.old) }
        ensures spare { self.old.spare ≤ self.new.spare + 1 }
    {
        let size = text.as_slice().len();
        if self.texts.holds(number) {
            let former = self.texts.replace(number, text);
            let _ = self.shelf.replace(number, mol);
            self.bytes = self.bytes - former.as_slice().len() + size;
            return;
        }
        self.texts.insert(number, text);
        self.shelf.insert(number, mol);
        self.bytes += size;
        self.next = number + 1;
        self.room -= 1;
    }

    // Puts a stored record behind all that are held, below the next number.
    pub(crate) fn put_stored(&mut self, number: u32, text: Bytes, mol: Mol)
        requires place { GoesBehind self.old.next_record self.old.records (record { number = number; text = text }) }
        requires room { 1 ≤ self.old.spare }
        requires molecule { IsMoleculeOf text mol }
        ensures records { self.new.records ≡ self.old.records ++ record { number = number; text = text } ∷ [] }
        ensures next { self.new.next_record ≡ self.old.next_record }
    {
        let size = text.as_slice().len();
        self.texts.insert(number, text);
        self.shelf.insert(number, mol);
        self.bytes += size;
        self.room -= 1;
    }

    // Takes a record out that is held.
    pub(crate) fn take_out(&mut self, number: u32)
        requires { is_held number self.old.records ≡ true }
        ensures tables { tables_of self.new ≡ after_change (DropRecord number) (tables_of self.old) }
        ensures spare { self.old.spare ≤ self.new.spare }
    {
        let Some(text) = self.texts.remove(number) else {
            return;
        };
        let _ = self.shelf.remove(number);
        self.bytes -= text.as_slice().len();
        self.room = self.room.saturating_add(1);
    }
}
