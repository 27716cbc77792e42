// The keys of a query on a shelf, one after another.
ghost use Rattle.std.specs.Prelude.{◌≡◌, ◌∷◌, ◌++◌, [], IfErr, IfOk};
ghost use Rattle.mk_search.specs.Occurrences.{reached};
ghost use Rattle.mk_search.specs.Turns.{IsHigher};

use crate::finding::{following, next_key, next_turn};
use crate::occurrences::Occurrences;
use crate::stages::{Came, Stage};
use mk_expansions::{first_number, is_below};
use mk_index::Shelf;
use mk_model::{Key, Memory, Place, Query, Screen, Steps, Turn};
use std::alloc::Global;
use std::marker::Model;
use std::sync::ledger::Ledger;
use std::{fmt, mem};

// How many numbers a place has at most where all places before it have no more.
const MOST_NUMBERS: usize = 514;

/// The keys of a query on a shelf from a place on. It holds what is left of the record that is open,
/// what all codes of the query need, the place, and where it stands. The next place is written
/// beside the place, into room that stays.
#[derive(Drop)]
pub struct Hits<'a> {
    all: Occurrences<'a>,
    need: Option<Screen>,
    place: Vec<u32>,
    beside: Vec<u32>,
    stage: Stage<'a>,
    shelf: &'a Shelf,
}

impl fmt::Debug for Hits<'_> {
    // It shows the place alone.
    fn fmt<W: fmt::Write>(&self, f: &mut fmt::Formatter<W>) -> fmt::Result {
        f.debug_struct("Hits")
            .field("place", &self.place)
            .finish_non_exhaustive()
    }
}

impl<'a> Model for Hits<'a> {
    ghost use Rattle.mk_search.specs.Hits.{HitsLeft};
    ghost use Rattle.mk_search.specs.Stages.{IsStanding, debt_at, open_in, pairs_from};

    ghost Value = { HitsLeft };

    ghost view = { λ h. record { rows = h.shelf.now.rows; query = h.all.query.now; place = h.place.items; from = pairs_from h.stage h.all; debt = debt_at h.stage h.place.items h.all; opened = open_in h.stage h.all } };

    ghost invariant = { λ h. IsStanding h.shelf.now.rows h.place.items h.need h.stage h.all };
}

impl<'a> Hits<'a> {
    ghost use Rattle.std.specs.Prelude.{◌≡◌, ◌≤◌, ◌∷◌, ◌++◌, [], ℕ, List, IfErr, IfOk, length};
    ghost use Rattle.mk_search.specs.Hits.{HitsLeft, IsMadeFrom, IsNextKey, IsPassed, IsSameSearch, IsTurnOfHits};

    /// The keys that aren't below the place. No matcher is begun.
    pub fn from_place(
        alloc: Global,
        shelf: &'a Shelf,
        query: &'a Query,
        place: &[u32],
    ) -> Result<Hits<'a>, Memory>
        ensures left { IfOk result (IsMadeFrom shelf.now.rows query.now place.now) }
    {
        let from = first_number(place);
        let own = with_room(alloc, place)?;
        let beside = with_room(alloc, &[])?;
        let (all, need) = Occurrences::of(alloc, query)?;
        Ok(Hits {
            all,
            need,
            place: own,
            beside,
            stage: Stage::From(from),
            shelf,
        })
    }

    /// Gives the place: the last key followed by 0, or the one that the keys were made from; after a
    /// turn that took none out, the list that it came to, where that isn't below the place before.
    pub fn place(&self, alloc: Global) -> Result<Place, Memory>
        ensures { IfOk result (λ place. place ≡ self.now.place) }
    {
        Ok(Place::of(Vec::from_slice(alloc, &self.place)?))
    }

    /// The next key, where there is one. It begins a matcher for each code that it opens. After
    /// `Memory` the same keys are left, from the same place.
    pub fn next<L: Ledger>(
        &mut self,
        alloc: Global,
        steps: &mut Steps<L>,
    ) -> Result<Option<Key>, Memory>
        ensures next { IfOk result (IsNextKey self.old self.new steps.old steps.new) }
        ensures search { IfErr result (λ _. IsSameSearch self.old self.new) }
        ensures place { IfErr result (λ _. self.new.place ≡ self.old.place) }
        ensures steps { steps.old ≤ steps.new }
    {
        // While it works, and after what fails, a search from the place on is left.
        let first = first_number(&self.place);
        let stage = mem::replace(&mut self.stage, Stage::From(first));
        let found = next_key(
            alloc,
            self.shelf,
            &self.need,
            &self.place,
            stage,
            &mut self.all,
            steps,
        )?;
        let Some(row) = found else {
            self.stage = Stage::Ended;
            return Ok(None);
        };
        let key = key_of(alloc, row.number, &self.all.numbers)?;
        put_behind(&mut self.beside, &key)?;
        mem::swap(&mut self.place, &mut self.beside);
        self.stage = Stage::In(row);
        Ok(Some(Key::of(key)))
    }

    /// Goes on by one turn: the next key is taken out; or none is, and the place is further on; or
    /// none is left. A turn is one of `Codes` or of `Maps`; or a record is taken up, where the root has
    /// a slot. It begins a matcher where it opens a code. After `Memory` the same keys are left, from
    /// the same place.
    pub fn advance<L: Ledger>(
        &mut self,
        alloc: Global,
        steps: &mut Steps<L>,
    ) -> Result<Turn, Memory>
        ensures turn { IfOk result (IsTurnOfHits self.old self.new steps.old steps.new) }
        ensures search { IfErr result (λ _. IsSameSearch self.old self.new) }
        ensures place { IfErr result (λ _. self.new.place ≡ self.old.place) }
        ensures steps { steps.old ≤ steps.new }
    {
        // While it works, and after what fails, a search from the place on is left.
        let first = first_number(&self.place);
        let stage = mem::replace(&mut self.stage, Stage::From(first));
        let came = next_turn(
            alloc,
            self.shelf,
            &self.need,
            &self.place,
            stage,
            &mut self.all,
            steps,
        )?;
        match came {
            Came::Out(row) => {
                put_higher(&self.all, row.number, &mut self.place, &mut self.beside)?;
                self.stage = Stage::In(row);
                Ok(Turn::Item)
            }
            Came::On(row) => {
                put_higher(&self.all, row.number, &mut self.place, &mut self.beside)?;
                self.stage = Stage::In(row);
                Ok(Turn::Moved)
            }
            Came::Nowhere => {
                self.stage = Stage::Ended;
                Ok(Turn::End)
            }
        }
    }

    /// The key that the last turn took out.
    pub fn item(&self) -> &[u32]
        requires behind { (key : List ℕ) × (self.now.place ≡ key ++ 0 ∷ []) }
        ensures { self.now.place ≡ result.now ++ 0 ∷ [] }
    {
        &self.place[..self.place.len() - 1]
    }

    /// Passes over what is left of the record of the last key, and says whether a record above it is
    /// held. It takes no memory and begins no matcher. Where none is held above, nothing changes.
    pub fn pass_record(&mut self) -> bool
        requires key { 1 ≤ length self.old.place }
        ensures passed { IsPassed self.old self.new result }
    {
        let Some(above) = following(self.shelf, self.place[0]) else {
            return false;
        };
        self.place.truncate(1);
        self.place[0] = above;
        self.stage = Stage::From(above);
        true
    }
}

// The numbers of a place, with room for the longest.
fn with_room(alloc: Global, place: &[u32]) -> Result<Vec<u32>, Memory>
    ensures { IfOk result (λ own. own.items ≡ place.now) }
{
    let mut own = Vec::with_capacity(alloc, MOST_NUMBERS)?;
    own.extend_from_slice(place)?;
    Ok(own)
}

// Puts the list that the search came to in a record in place of one that it isn't below.
fn put_higher(
    all: &Occurrences<'_>,
    number: u32,
    place: &mut Vec<u32>,
    beside: &mut Vec<u32>,
) -> Result<(), Memory>
    ensures higher { IfOk result (λ _. IsHigher place.old.items (number ∷ reached all.now.codes all.now.open) place.new.items) }
    ensures same { IfErr result (λ _. place.new.items ≡ place.old.items) }
{
    all.put_reached(number, beside)?;
    if is_below(beside, place) {
        return Ok(());
    }
    mem::swap(place, beside);
    Ok(())
}

// A record's number, and an occurrence behind it.
fn key_of(alloc: Global, number: u32, numbers: &[u32]) -> Result<Vec<u32>, Memory>
    ensures { IfOk result (λ key. key.items ≡ number ∷ numbers.now) }
{
    let mut key = Vec::with_capacity(alloc, numbers.len() + 1)?;
    key.push(number)?;
    key.extend_from_slice(numbers)?;
    Ok(key)
}

// Puts the place behind a key.
fn put_behind(place: &mut Vec<u32>, key: &[u32]) -> Result<(), Memory>
    ensures { IfOk result (λ _. place.new.items ≡ key.now ++ 0 ∷ []) }
{
    place.clear();
    place.extend_from_slice(key)?;
    place.push(0)?;
    Ok(())
}
