// The hits of the drill: a first page, and behind the removal all keys that remain.
ghost use Rattle.std.specs.Prelude.{◌≡◌, ◌<◌, ◌≤◌, IfOk, OnOk};
ghost use Rattle.mk_drill.specs.Drill.{AreHits};
ghost use Rattle.mk_drill.specs.Listing.{AreOthers};

use crate::drilled_records::{drilled_library, remove_multiples};
use mk_index::Shelf;
use mk_model::{Key, Place, Query, Steps};
use mk_search::page;
use mk_text::Memory;
use std::alloc::Global;
use std::sync::ledger::{Blank, Ledger};

// How many keys a page has.
const PAGE: usize = 100;

/// The hits that are listed, in order.
pub fn listed_hits<L: Ledger>(
    alloc: Global,
    start: u32,
    count: u32,
    query: &Query,
    blank: Blank,
) -> Result<Vec<Key>, Memory>
    requires few { count ≤ 10000 }
    requires name { blank.name ≡ L.name }
    requires parts { blank.parts ≡ L.parts }
    requires one { 0 < L.parts }
    ensures { IfOk result (λ hits. AreHits start count query.now hits.items) }
{
    let mut steps = Steps::<L>::new(blank);
    let mut library = drilled_library(alloc, start, count)?;
    let first = page(alloc, library.shelf(), query, &[], PAGE, &mut steps)?;
    let mut hits = first.hits.into_vec();
    if first.ended {
        return Ok(hits);
    }
    remove_multiples(alloc, &mut library, start, count)?;
    put_others(
        alloc,
        library.shelf(),
        query,
        first.place,
        &mut hits,
        &mut steps,
    )?;
    Ok(hits)
}

// Appends all keys from a place on, page by page.
fn put_others<L: Ledger>(
    alloc: Global,
    shelf: &Shelf,
    query: &Query,
    place: Place,
    hits: &mut Vec<Key>,
    steps: &mut Steps<L>,
) -> Result<(), Memory>
    ensures { OnOk result (AreOthers shelf.now.rows query.now place hits.old.items hits.new.items) }
{
    let mut from = place;
    loop {
        let listed = page(alloc, shelf, query, from.as_slice(), PAGE, steps)?;
        let mut keys = listed.hits.into_vec();
        hits.append(&mut keys)?;
        if listed.ended {
            return Ok(());
        }
        from = listed.place;
    }
}
