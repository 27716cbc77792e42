// The commands `search` and `resume`.
ghost use Rattle.std.specs.Prelude.{◌≡◌, ℕ, ◌<◌, ◌≤◌, ◌∷◌, [], None, Some, IfOk, IfSome, length};
ghost use Rattle.mk_outside.specs.declared.tables.Change.TheVariants.{PutCursor, DropCursor};
ghost use Rattle.mk_found.specs.declared.effect.Found.TheVariants as found;
ghost use Rattle.mk_kept.specs.Names.{IsHeldNumber, IsName};
ghost use Rattle.mk_found.specs.Findings.{FoundFits, effect_of, stands_for};
ghost use Rattle.mk_effects.specs.Ticks.{BeginsOfListed, BeginsOfResume, BeginsOfSearch};
ghost use Rattle.mk_search.specs.Begins.{BeginsOfPaced};
ghost use Rattle.mk_search.specs.Paced.{IsPacedPage};
ghost use Rattle.mk_search.specs.Pages.{IsHeldIn};
ghost use Rattle.mk_kept.specs.Saved.{IsSameSaved, longest_place, most_search_number};
ghost use Rattle.mk_kept.specs.Asked.{IsBudget, IsLimit};
ghost use Rattle.mk_effects.specs.Searching.{HasListing, IsResume, IsSearch, full_searches_text, no_search_text};

use crate::hit_lines::{Stop, hits_answer, stop_of, stop_of_paced};
use mk_found::{Found, SessionEdit, no_query, put_numbered};
use mk_index::Shelf;
use mk_kept::{Saved, SavedPending};
use mk_library::Library;
use mk_model::{Query, Steps};
use mk_mol::one_filled_molecule;
use mk_outside::{Bytes, Change, Memory, Place};
use mk_sdfile::sdfile_is_exact;
use mk_search::{Paced, page, page_within, places_are_short};
use std::alloc::Global;
use std::marker::Brand;
use std::sync::ledger::{Blank, Ledger};

/// What `search` comes to.
pub fn search_found<L: Ledger>(
    alloc: Global,
    library: &Library,
    saved: &mut Saved,
    name: &str,
    limit: u32,
    budget: Option<u32>,
    steps: &mut Steps<L>,
) -> Result<Found, Memory>
    requires name { IsName name.now }
    requires limit { IsLimit limit }
    requires budget { IfSome budget IsBudget }
    ensures comes { IfOk result (λ found. IsSearch (stands_for library.now saved.old) name.now limit budget (effect_of found)) }
    ensures begins { IfOk result (λ found. BeginsOfSearch (stands_for library.now saved.old) name.now limit budget (effect_of found) steps.old steps.new) }
    ensures fits { IfOk result (FoundFits library.now saved.new) }
    ensures same { IsSameSaved saved.old saved.new }
{
    let Some(query) = saved.query_named(name.as_bytes()) else {
        return no_query(alloc, name);
    };
    if !saved.has_search_room() {
        return full_searches(alloc);
    }
    let number = saved.next_cursor();
    let listed = listed(alloc, library, query, &[], limit, budget, number, steps)?;
    match listed.stop {
        Stop::Ended => Ok(Found::Answered(SessionEdit::Unchanged, listed.text)),
        Stop::More(_) | Stop::Paused(_) => {
            saved.reserve_cursor()?;
            let name = Vec::from_slice(alloc, name.as_bytes())?;
            let pending = put_pending(alloc, number, Bytes::of(name), listed.place)?;
            Ok(Found::Answered(SessionEdit::OfSaved(pending), listed.text))
        }
    }
}

/// What `resume` comes to.
pub fn resume_found<L: Ledger>(
    alloc: Global,
    library: &Library,
    saved: &mut Saved,
    number: u32,
    limit: u32,
    budget: Option<u32>,
    steps: &mut Steps<L>,
) -> Result<Found, Memory>
    requires number { IsHeldNumber number }
    requires limit { IsLimit limit }
    requires budget { IfSome budget IsBudget }
    ensures comes { IfOk result (λ found. IsResume (stands_for library.now saved.old) number limit budget (effect_of found)) }
    ensures begins { IfOk result (λ found. BeginsOfResume (stands_for library.now saved.old) number limit budget (effect_of found) steps.old steps.new) }
    ensures fits { IfOk result (FoundFits library.now saved.new) }
    ensures same { IsSameSaved saved.old saved.new }
{
    let Some(search) = saved.search(number) else {
        return no_search(alloc, number);
    };
    let Some(query) = saved.query_named(search.name.as_slice()) else {
        unreachable!()
    };
    let place = search.place.as_slice();
    let listed = listed(alloc, library, query, place, limit, budget, number, steps)?;
    match listed.stop {
        Stop::Ended => {
            let pending = drop_pending(alloc, number)?;
            Ok(Found::Answered(SessionEdit::OfSaved(pending), listed.text))
        }
        Stop::More(_) | Stop::Paused(_) => {
            let name = Bytes::of(Vec::from_slice(alloc, search.name.as_slice())?);
            saved.reserve_cursor()?;
            let pending = put_pending(alloc, number, name, listed.place)?;
            Ok(Found::Answered(SessionEdit::OfSaved(pending), listed.text))
        }
    }
}

// Keys that are listed: where they stop, the next place, and their answer.
#[derive(Drop)]
struct Listing {
    stop: Stop,
    place: Place,
    text: Bytes,
}

// The first keys of the query from the place on, as many as the limit and the budget allow; the
// number is that under which there may be more.
fn listed<L: Ledger>(
    alloc: Global,
    library: &Library,
    query: &Query,
    place: &[u32],
    limit: u32,
    budget: Option<u32>,
    number: u32,
    steps: &mut Steps<L>,
) -> Result<Listing, Memory>
    requires limit { IsLimit limit }
    requires budget { IfSome budget IsBudget }
    requires short { length place.now ≤ longest_place }
    ensures listed { IfOk result (λ r. HasListing library.now.records query.now place.now limit budget number r.stop r.place r.text) }
    ensures begins { IfOk result (λ r. BeginsOfListed library.now.records query.now place.now limit budget number r.stop r.place r.text steps.old steps.new) }
    ensures short { IfOk result (λ r. length r.place ≤ longest_place) }
{
    match budget {
        None => list_first(alloc, library, query, place, limit, number, steps),
        Some(budget) => list_within(alloc, library, query, place, limit, budget, number, steps),
    }
}

// The same without a budget.
fn list_first<L: Ledger>(
    alloc: Global,
    library: &Library,
    query: &Query,
    place: &[u32],
    limit: u32,
    number: u32,
    steps: &mut Steps<L>,
) -> Result<Listing, Memory>
    requires limit { IsLimit limit }
    requires short { length place.now ≤ longest_place }
    ensures listed { IfOk result (λ r. HasListing library.now.records query.now place.now limit None number r.stop r.place r.text) }
    ensures begins { IfOk result (λ r. BeginsOfListed library.now.records query.now place.now limit None number r.stop r.place r.text steps.old steps.new) }
    ensures short { IfOk result (λ r. length r.place ≤ longest_place) }
{
    // For the proof alone: a record has one molecule, and places are short by what a query keeps.
    places_are_short();
    sdfile_is_exact();
    one_filled_molecule();
    let _kept = query.templates();
    let most = limit as usize;
    let listed = page(alloc, library.shelf(), query, place, most, steps)?;
    let stop = stop_of(&listed, number);
    let text = hits_answer(alloc, query, listed.hits.as_slice(), stop)?;
    Ok(Listing {
        stop,
        place: listed.place,
        text: Bytes::of(text),
    })
}

// The same with a budget.
fn list_within<L: Ledger>(
    alloc: Global,
    library: &Library,
    query: &Query,
    place: &[u32],
    limit: u32,
    budget: u32,
    number: u32,
    steps: &mut Steps<L>,
) -> Result<Listing, Memory>
    requires limit { IsLimit limit }
    requires budget { IsBudget budget }
    requires short { length place.now ≤ longest_place }
    ensures listed { IfOk result (λ r. HasListing library.now.records query.now place.now limit (Some budget) number r.stop r.place r.text) }
    ensures begins { IfOk result (λ r. BeginsOfListed library.now.records query.now place.now limit (Some budget) number r.stop r.place r.text steps.old steps.new) }
    ensures short { IfOk result (λ r. length r.place ≤ longest_place) }
{
    // For the proof alone: a record has one molecule.
    sdfile_is_exact();
    one_filled_molecule();
    let shelf = library.shelf();
    let blank = Blank::new(1);
    let listed = paced::<L, Brand>(alloc, shelf, query, place, limit, budget, steps, blank)?;
    let stop = stop_of_paced(listed.stop, number);
    let text = hits_answer(alloc, query, listed.hits.as_slice(), stop)?;
    Ok(Listing {
        stop,
        place: listed.place,
        text: Bytes::of(text),
    })
}

// The page that the budget allows. Its turns are counted on a ledger of its own.
fn paced<L: Ledger, M: Ledger>(
    alloc: Global,
    shelf: &Shelf,
    query: &Query,
    place: &[u32],
    limit: u32,
    budget: u32,
    steps: &mut Steps<L>,
    blank: Blank,
) -> Result<Paced, Memory>
    requires limit { IsLimit limit }
    requires budget { IsBudget budget }
    requires short { length place.now ≤ longest_place }
    requires name { blank.name ≡ M.name }
    requires parts { blank.parts ≡ M.parts }
    requires one { 0 < M.parts }
    ensures paced { IfOk result (λ paced. (turns : ℕ) × IsPacedPage (IsHeldIn shelf.now.rows) query.now place.now limit budget 0 turns paced) }
    ensures begins { IfOk result (λ paced. BeginsOfPaced (IsHeldIn shelf.now.rows) query.now place.now paced steps.old steps.new) }
{
    let mut turns = Steps::<M>::new(blank);
    let most = limit as usize;
    page_within(alloc, shelf, query, place, most, budget, steps, &mut turns)
}

// The change that saves a search.
fn put_pending(
    alloc: Global,
    number: u32,
    name: Bytes,
    place: Place,
) -> Result<SavedPending, Memory>
    requires name { IsName name }
    requires known { number ≤ most_search_number }
    requires short { length place ≤ longest_place }
    ensures { IfOk result (λ pending. pending.changes ≡ PutCursor number name place ∷ []) }
{
    let mut changes = Vec::with_capacity(alloc, 1)?;
    changes.push(Change::PutCursor {
        number,
        name,
        place,
    })?;
    Ok(SavedPending::of(changes, Vec::new(alloc)))
}

// The change that drops one.
fn drop_pending(alloc: Global, number: u32) -> Result<SavedPending, Memory>
    ensures { IfOk result (λ pending. pending.changes ≡ DropCursor number ∷ []) }
{
    let mut changes = Vec::with_capacity(alloc, 1)?;
    changes.push(Change::DropCursor { number })?;
    Ok(SavedPending::of(changes, Vec::new(alloc)))
}

// The refusal of a search that isn't saved.
fn no_search(alloc: Global, number: u32) -> Result<Found, Memory>
    ensures { IfOk result (λ f. f ≡ found.Refused (no_search_text number)) }
{
    let mut text = Vec::new(alloc);
    put_numbered(alloc, &mut text, b"refused 9 cursor ", u64::from(number))?;
    Ok(Found::Refused(Bytes::of(text)))
}

// The refusal of a further saved search.
fn full_searches(alloc: Global) -> Result<Found, Memory>
    ensures { IfOk result (λ f. f ≡ found.Refused full_searches_text) }
{
    Ok(Found::Refused(Bytes::of(Vec::from_slice(alloc, b"refused 10 cursors\n")?)))
}
