// What a session holds beside its library, and one change of it at a time.
ghost use Rattle.std.specs.Prelude.{◌≡◌, ◌+◌, ◌<◌, ◌≤◌, ◌++◌, ◌∷◌, ℕ, [], false, true, nat_le, IfNone, IfSome, OnOk, length, Some, None};
ghost use Rattle.std.specs.List.{AllByRecursion};
ghost use Rattle.mk_outside.specs.declared.tables.Change.TheVariants.{PutQuery, DropQuery, PutCursor, DropCursor};
ghost use Rattle.mk_outside.specs.declared.tables.QueryRow.{QueryRow};
ghost use Rattle.mk_outside.specs.Tables.{after_change};
ghost use Rattle.mk_kept.specs.Names.{IsName};
ghost use Rattle.mk_kept.specs.Saved.{HasRoomFor, IsMeant, IsSameSaved, cursors_of, greatest_number, is_named, longest_place, most_queries, most_search_number, rows_of, saved_tables};
ghost use Rattle.mk_kept.specs.SavedPending.{IsInPlace};
ghost use Rattle.mk_kept.specs.Saved.{HasSearchRoom};
ghost use Rattle.mk_kept.specs.Named.{IsQueryNamed, search_of};
ghost use Rattle.mk_kept.specs.StoredRows.{HasQueryPlace, ReadsCursor};

use crate::names::is_name;
use indexmap::IndexMap;
use mk_model::Query;
use mk_outside::{Bytes, CursorRow, Memory, Place, QueryRow};
use mk_rows::{ByNumber, Numbered};
use std::alloc::Global;
use std::marker::Model;

// How much may be held.
const MOST_QUERIES: usize = 1_000;

// One more than a file of a query may have, whose last line may gain an LF.
const MOST_QUERY_BYTES: usize = 4_194_305;

const MOST_TEXT_BYTES: usize = 33_554_432;

const MOST_SEARCHES: usize = 1_000;

const MOST_SEARCH_NUMBER: usize = 999_999_999;

const LONGEST_PLACE: usize = 514;

/// A kept query: the number and the text of its row, and what the text means.
#[derive(Debug, Drop)]
pub struct Kept {
    pub number: u32,
    pub text: Bytes,
    pub query: Query,
}

/// A saved search: the name of its query, and where it goes on.
#[derive(Debug, Drop)]
pub struct SavedSearch {
    pub name: Bytes,
    pub place: Place,
}

/// Queries by name, in the order in which they were kept, and saved searches by number.
#[derive(Drop)]
pub struct Saved {
    queries: IndexMap<Vec<u8>, Kept>,
    bytes: usize,
    cursors: ByNumber<SavedSearch>,
    next_cursor: u32,
}

impl Model for Saved {
    ghost use Rattle.indexmap.specs.IndexMap.{spare};
    ghost use Rattle.mk_kept.specs.Saved.{IsSaved, SavedView, cursors_of, meanings_of, rows_of};

    ghost Value = { SavedView };

    ghost view = { λ s. record {
      queries = rows_of s.queries.entries;
      meanings = meanings_of s.queries.entries;
      cursors = cursors_of s.cursors.rows;
      next_cursor = s.next_cursor;
      query_room = spare s.queries;
      cursor_room = s.cursors.spare;
    } };

    ghost invariant = { λ s. IsSaved s.queries.entries s.bytes s.cursors.rows s.next_cursor };
}

impl Saved {
    /// Nothing; the next saved search has this number. It takes no memory.
    pub fn new(alloc: Global, next_cursor: u32) -> Saved
        ensures queries { result.queries ≡ [] }
        ensures cursors { result.cursors ≡ [] }
        ensures next { result.next_cursor ≡ next_cursor }
    {
        Saved {
            queries: IndexMap::new(alloc),
            bytes: 0,
            cursors: ByNumber::new(alloc),
            next_cursor,
        }
    }

    /// The queries by name, in the order in which they were kept.
    pub fn queries(&self) -> &IndexMap<Vec<u8>, Kept>
        ensures { rows_of result.now.entries ≡ self.now.queries }
    {
        &self.queries
    }

    /// The saved searches, by rising number.
    pub fn cursors(&self) -> &[Numbered<SavedSearch>]
        ensures { cursors_of result.now ≡ self.now.cursors }
    {
        self.cursors.rows()
    }

    pub fn next_cursor(&self) -> u32
        ensures { result ≡ self.now.next_cursor }
    {
        self.next_cursor
    }

    pub fn holds(&self, name: &[u8]) -> bool
        ensures { result ≡ is_named name.now self.now.queries }
    {
        self.queries.contains_key(name)
    }

    /// What the query of a name means, or none where none has the name.
    pub fn query_named(&self, name: &[u8]) -> Option<&Query>
        ensures some { IfSome result (λ query. IsQueryNamed self.now.queries name.now query.now) }
        ensures name { IfSome result (λ _. IsName name.now) }
        ensures none { IfNone result (is_named name.now self.now.queries ≡ false) }
    {
        match self.queries.get(name) {
            None => None,
            Some(kept) => Some(&kept.query),
        }
    }

    /// The saved search of a number.
    pub fn search(&self, number: u32) -> Option<&SavedSearch>
        ensures some { IfSome result (λ search. search_of number self.now.cursors ≡ Some (record { number = number; name = search.now.name; place = search.now.place })) }
        ensures named { IfSome result (λ search. is_named search.now.name self.now.queries ≡ true) }
        ensures short { IfSome result (λ search. length search.now.place ≤ longest_place) }
        ensures none { IfNone result (search_of number self.now.cursors ≡ None) }
    {
        self.cursors.get(number)
    }

    /// Whether one more search may be saved, whatever room there is in memory.
    pub fn has_search_room(&self) -> bool
        ensures room { result ≡ true → HasSearchRoom self.now.cursors self.now.next_cursor }
        ensures full { result ≡ false → ¬ (HasSearchRoom self.now.cursors self.now.next_cursor) }
    {
        self.cursors.rows().len() < MOST_SEARCHES && self.next_cursor as usize <= MOST_SEARCH_NUMBER
    }

    /// Whether there are as many queries as there may be.
    pub fn is_full(&self) -> bool
        ensures { result ≡ nat_le most_queries (length self.now.queries) }
    {
        self.queries.len() >= MOST_QUERIES
    }

    /// The number of a further query with this text, or none where the limits leave no room for it.
    pub fn number_for(&self, text: &[u8]) -> Option<u32>
        ensures room { IfSome result (λ _. HasRoomFor self.now.queries text.now) }
        ensures next { IfSome result (λ number. number ≡ greatest_number self.now.queries + 1) }
        ensures above { IfSome result (λ number. AllByRecursion (λ (row : QueryRow). row.number < number) self.now.queries) }

        ensures full { IfNone result (HasRoomFor self.now.queries text.now → ⊥) }
    {
        if text.len() > MOST_TEXT_BYTES - self.bytes {
            return None;
        }
        self.greatest_number().checked_add(1)
    }

    /// Whether a stored query may stand behind those that are held, whatever its text means.
    pub fn has_query_place(&self, row: &QueryRow) -> bool
        ensures place { result ≡ true → HasQueryPlace self.now.queries row.now }
        ensures none { result ≡ false → ¬ (HasQueryPlace self.now.queries row.now) }
    {
        if row.number <= self.greatest_number() {
            return false;
        }
        let name = row.name.as_slice();
        if !is_name(name) || self.holds(name) || self.is_full() {
            return false;
        }
        let size = row.text.as_slice().len();
        size <= MOST_QUERY_BYTES && size <= MOST_TEXT_BYTES - self.bytes
    }

    /// Whether a stored search may stand behind those that are held.
    pub fn has_cursor_place(&self, row: &CursorRow) -> bool
        ensures place { result ≡ true → ReadsCursor self.now.queries self.now.next_cursor self.now.cursors row.now }
        ensures none { result ≡ false → ¬ (ReadsCursor self.now.queries self.now.next_cursor self.now.cursors row.now) }
    {
        let number = row.number;
        if number == 0 || number as usize > MOST_SEARCH_NUMBER || number >= self.next_cursor {
            return false;
        }
        if let Some(_held) = self.cursors.next_row(number) {
            return false;
        }
        if self.cursors.rows().len() >= MOST_SEARCHES
            || row.place.as_slice().len() > LONGEST_PLACE
        {
            return false;
        }
        self.holds(row.name.as_slice())
    }

    // The greatest number of a query, which is the last one's, or 0.
    fn greatest_number(&self) -> u32
        ensures greatest { result ≡ greatest_number self.now.queries }
        ensures least { AllByRecursion (λ (row : QueryRow). row.number ≤ result) self.now.queries }
    {
        match self.queries.last() {
            None => 0,
            Some((_, kept)) => kept.number,
        }
    }

    /// Makes room for one more query.
    pub fn reserve_query(&mut self) -> Result<(), Memory>
        ensures room { OnOk result (1 ≤ self.new.query_room) }
        ensures other_room { self.old.cursor_room ≤ self.new.cursor_room }
        ensures same { IsSameSaved self.old self.new }
    {
        self.queries.reserve(1)
    }

    /// Makes room for one more saved search.
    pub fn reserve_cursor(&mut self) -> Result<(), Memory>
        ensures room { OnOk result (1 ≤ self.new.cursor_room) }
        ensures other_room { self.old.query_room ≤ self.new.query_room }
        ensures same { IsSameSaved self.old self.new }
    {
        self.cursors.reserve(1)
    }

    /// Puts a query behind all that are held. It takes no memory.
    pub fn put_query(&mut self, number: u32, name: Vec<u8>, text: Bytes, query: Query)
        requires place { IsInPlace (PutQuery number name.items text) (saved_tables self.old) }
        requires name { IsName name.items }
        requires least { 1 ≤ number }
        requires meant { IsMeant text query }
        requires room { 1 ≤ self.old.query_room }
        ensures tables { saved_tables self.new ≡ after_change (PutQuery number name.items text) (saved_tables self.old) }
        ensures queries { self.new.queries ≡ self.old.queries ++ record { number = number; name = name.items; text = text } ∷ [] }
        ensures room { self.old.query_room ≤ self.new.query_room + 1 }
        ensures other_room { self.new.cursor_room ≡ self.old.cursor_room }
    {
        self.bytes += text.as_slice().len();
        let kept = Kept {
            number,
            text,
            query,
        };
        let _ = self.queries.insert(name, kept);
    }

    /// Takes a query out that has no saved search left.
    pub fn drop_query(&mut self, name: &[u8])
        requires { IsInPlace (DropQuery name.now) (saved_tables self.old) }
        ensures tables { saved_tables self.new ≡ after_change (DropQuery name.now) (saved_tables self.old) }
        ensures room { self.old.query_room ≤ self.new.query_room }
        ensures other_room { self.new.cursor_room ≡ self.old.cursor_room }
    {
        let Some(kept) = self.queries.shift_remove(name) else {
            return;
        };
        self.bytes -= kept.text.as_slice().len();
    }

    /// Puts a saved search of a query that is held. It takes no memory.
    pub fn put_cursor(&mut self, number: u32, name: Bytes, place: Place)
        requires place { IsInPlace (PutCursor number name place) (saved_tables self.old) }
        requires known { number ≤ most_search_number }
        requires short { length place ≤ longest_place }
        requires room { 1 ≤ self.old.cursor_room }
        ensures tables { saved_tables self.new ≡ after_change (PutCursor number name place) (saved_tables self.old) }
        ensures room { self.old.cursor_room ≤ self.new.cursor_room + 1 }
        ensures other_room { self.new.query_room ≡ self.old.query_room }
    {
        let search = SavedSearch { name, place };
        self.next_cursor = self.next_cursor.max(number + 1);
        if self.cursors.holds(number) {
            let _ = self.cursors.replace(number, search);
            return;
        }
        self.cursors.insert(number, search);
    }

    /// Takes a saved search out.
    pub fn drop_cursor(&mut self, number: u32)
        ensures tables { saved_tables self.new ≡ after_change (DropCursor number) (saved_tables self.old) }
        ensures room { self.old.cursor_room ≤ self.new.cursor_room }
        ensures other_room { self.new.query_room ≡ self.old.query_room }
    {
        let _ = self.cursors.remove(number);
    }
}
