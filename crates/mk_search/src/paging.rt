// Pages, and the least key from a place on.
ghost use Rattle.std.specs.Prelude.{◌≡◌, ◌≤◌, IfOk};
ghost use Rattle.mk_text.specs.Rising.{IsLeastFrom};
ghost use Rattle.mk_model.specs.Keys.{IsKey};
ghost use Rattle.mk_search.specs.Begins.{BeginsOfPage};
ghost use Rattle.mk_search.specs.Hits.{IsMadeFrom};
ghost use Rattle.mk_search.specs.Pages.{IsHeldIn, IsPage};

use crate::hits::Hits;
use crate::pages::Page;
use mk_index::Shelf;
use mk_model::{Key, Keys, Memory, Query, Steps};
use std::alloc::Global;
use std::sync::ledger::Ledger;

/// The first keys that aren't below the place, at most so many, and the place behind them.
pub fn page<L: Ledger>(
    alloc: Global,
    shelf: &Shelf,
    query: &Query,
    place: &[u32],
    limit: usize,
    steps: &mut Steps<L>,
) -> Result<Page, Memory>
    requires least { 1 ≤ limit }
    requires most { limit ≤ 10000 }
    ensures page { IfOk result (IsPage (IsHeldIn shelf.now.rows) query.now place.now limit) }
    ensures begins { IfOk result (λ page. BeginsOfPage (IsHeldIn shelf.now.rows) query.now place.now page steps.old steps.new) }
    ensures steps { steps.old ≤ steps.new }
{
    let mut hits = Hits::from_place(alloc, shelf, query, place)?;
    let page = page_of(alloc, &mut hits, limit, steps);
    // For the proof alone: a call lets it go, and not the end of the block.
    drop(hits);
    page
}

// The first keys that are left, at most so many, and the place behind them.
fn page_of<L: Ledger>(
    alloc: Global,
    hits: &mut Hits<'_>,
    limit: usize,
    steps: &mut Steps<L>,
) -> Result<Page, Memory>
    requires least { 1 ≤ limit }
    requires made { IsMadeFrom hits.old.rows hits.old.query hits.old.place hits.old }
    ensures page { IfOk result (IsPage (IsHeldIn hits.old.rows) hits.old.query hits.old.place limit) }
    ensures begins { IfOk result (λ page. BeginsOfPage (IsHeldIn hits.old.rows) hits.old.query hits.old.place page steps.old steps.new) }
    ensures steps { steps.old ≤ steps.new }
{
    let mut keys = Vec::new(alloc);
    while keys.len() < limit {
        let Some(key) = hits.next(alloc, steps)? else {
            return Ok(Page {
                hits: Keys::of(keys),
                place: hits.place(alloc)?,
                ended: true,
            });
        };
        keys.push(key)?;
    }
    Ok(Page {
        hits: Keys::of(keys),
        place: hits.place(alloc)?,
        ended: false,
    })
}

/// The least key that isn't below the place. None exactly where there is none.
pub fn least_hit<L: Ledger>(
    alloc: Global,
    shelf: &Shelf,
    query: &Query,
    place: &[u32],
    steps: &mut Steps<L>,
) -> Result<Option<Key>, Memory>
    ensures least { IfOk result (IsLeastFrom place.now (IsKey (IsHeldIn shelf.now.rows) query.now)) }
    ensures steps { steps.old ≤ steps.new }
{
    let mut hits = Hits::from_place(alloc, shelf, query, place)?;
    let key = hits.next(alloc, steps);
    // For the proof alone: a call lets it go, and not the end of the block.
    drop(hits);
    key
}
