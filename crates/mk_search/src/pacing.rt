// Pages within a budget of turns.
ghost use Rattle.std.specs.Prelude.{◌≡◌, ◌≤◌, ◌∷◌, ◌++◌, [], IfOk, OnOk, length};
ghost use Rattle.mk_model.specs.QueryFits.{QueryFits};
ghost use Rattle.mk_search.specs.Begins.{BeginsOfPaced};
ghost use Rattle.mk_search.specs.Hits.{IsMadeFrom};
ghost use Rattle.mk_search.specs.Paced.{IsCountedTurn, IsPacedPage};
ghost use Rattle.mk_search.specs.Pages.{IsHeldIn};

use crate::hits::Hits;
use crate::paced::{Paced, Stop};
use mk_index::Shelf;
use mk_model::{Key, Keys, Memory, Query, Steps, Turn};
use std::alloc::Global;
use std::sync::ledger::Ledger;

/// The first keys that aren't below the place, at most so many, in at most so many turns; and the
/// place from which the others are left.
pub fn page_within<L: Ledger, M: Ledger>(
    alloc: Global,
    shelf: &Shelf,
    query: &Query,
    place: &[u32],
    limit: usize,
    budget: u32,
    begins: &mut Steps<L>,
    turns: &mut Steps<M>,
) -> Result<Paced, Memory>
    requires least { 1 ≤ limit }
    requires most { limit ≤ 10000 }
    requires budget { 2048 ≤ budget }
    requires short { length place.now ≤ 514 }
    ensures paced { IfOk result (IsPacedPage (IsHeldIn shelf.now.rows) query.now place.now limit budget turns.old turns.new) }
    ensures begins { IfOk result (λ paced. BeginsOfPaced (IsHeldIn shelf.now.rows) query.now place.now paced begins.old begins.new) }
    ensures steps { begins.old ≤ begins.new }
    ensures turns { turns.old ≤ turns.new }
{
    // The reader's clause says what every query keeps.
    let _fits = query.templates();
    let mut hits = Hits::from_place(alloc, shelf, query, place)?;
    let paced = paced_of(alloc, &mut hits, limit, budget, begins, turns);
    // For the proof alone: a call lets it go, and not the end of the block.
    drop(hits);
    paced
}

// The first keys that are left, at most so many, in at most so many turns; and the place from which the
// others are left.
fn paced_of<L: Ledger, M: Ledger>(
    alloc: Global,
    hits: &mut Hits<'_>,
    limit: usize,
    budget: u32,
    begins: &mut Steps<L>,
    turns: &mut Steps<M>,
) -> Result<Paced, Memory>
    requires least { 1 ≤ limit }
    requires short { length hits.old.place ≤ 514 }
    requires fits { QueryFits hits.old.query }
    requires made { IsMadeFrom hits.old.rows hits.old.query hits.old.place hits.old }
    ensures paced { IfOk result (IsPacedPage (IsHeldIn hits.old.rows) hits.old.query hits.old.place limit budget turns.old turns.new) }
    ensures begins { IfOk result (λ paced. BeginsOfPaced (IsHeldIn hits.old.rows) hits.old.query hits.old.place paced begins.old begins.new) }
    ensures steps { begins.old ≤ begins.new }
    ensures turns { turns.old ≤ turns.new }
{
    let mut keys = Vec::new(alloc);
    let stop = take_turns(alloc, hits, &mut keys, limit, budget, begins, turns)?;
    Ok(Paced {
        hits: Keys::of(keys),
        place: hits.place(alloc)?,
        stop,
    })
}

// Takes turns until there are as many keys as asked for, or none is left, or the budget is spent.
fn take_turns<L: Ledger, M: Ledger>(
    alloc: Global,
    hits: &mut Hits<'_>,
    keys: &mut Vec<Key>,
    limit: usize,
    budget: u32,
    begins: &mut Steps<L>,
    turns: &mut Steps<M>,
) -> Result<Stop, Memory>
    requires least { 1 ≤ limit }
    requires short { length hits.old.place ≤ 514 }
    requires fits { QueryFits hits.old.query }
    requires made { IsMadeFrom hits.old.rows hits.old.query hits.old.place hits.old }
    requires none { keys.old.items ≡ [] }
    ensures paced { IfOk result (λ stop. IsPacedPage (IsHeldIn hits.old.rows) hits.old.query hits.old.place limit budget turns.old turns.new (record { hits = keys.new.items; place = hits.new.place; stop = stop })) }
    ensures begins { IfOk result (λ stop. BeginsOfPaced (IsHeldIn hits.old.rows) hits.old.query hits.old.place (record { hits = keys.new.items; place = hits.new.place; stop = stop }) begins.old begins.new) }
    ensures steps { begins.old ≤ begins.new }
    ensures turns { turns.old ≤ turns.new }
{
    let mut spent = 0;
    while spent < budget {
        match take_turn(alloc, hits, keys, begins, turns)? {
            Turn::End => return Ok(Stop::Ended),
            Turn::Moved => {
                spent += 1;
                continue;
            }
            Turn::Item => {
                spent += 1;
                if keys.len() == limit {
                    return Ok(Stop::Full);
                }
            }
        }
    }
    Ok(Stop::Paused)
}

// Goes on by one turn, and counts it, but for the end. A key that it takes out is put behind the
// others.
fn take_turn<L: Ledger, M: Ledger>(
    alloc: Global,
    hits: &mut Hits<'_>,
    keys: &mut Vec<Key>,
    begins: &mut Steps<L>,
    turns: &mut Steps<M>,
) -> Result<Turn, Memory>
    ensures turn { IfOk result (IsCountedTurn hits.old hits.new keys.old.items keys.new.items begins.old begins.new turns.old turns.new) }
    ensures steps { begins.old ≤ begins.new }
    ensures turns { turns.old ≤ turns.new }
{
    match hits.advance(alloc, begins)? {
        Turn::End => Ok(Turn::End),
        Turn::Moved => {
            turns.tick();
            Ok(Turn::Moved)
        }
        Turn::Item => {
            turns.tick();
            put_copy(alloc, keys, hits.item())?;
            Ok(Turn::Item)
        }
    }
}

// Puts a copy of a key behind the others.
fn put_copy(alloc: Global, keys: &mut Vec<Key>, key: &[u32]) -> Result<(), Memory>
    ensures { OnOk result (keys.new.items ≡ keys.old.items ++ key.now ∷ []) }
{
    let copy = Vec::from_slice(alloc, key)?;
    keys.push(Key::of(copy))?;
    Ok(())
}
