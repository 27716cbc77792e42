// The next key, from where a search of a shelf stands: records, and in each the occurrences of the
// query.
ghost use Rattle.std.specs.Prelude.{◌≡◌, ◌≤◌, ◌+◌, ◌∷◌, [], ℕ, IfNone, IfOk, IfSome, false};
ghost use Rattle.mk_rows.specs.Rows.{NoneFrom};
ghost use Rattle.mk_search.specs.Levels.{AtFronts};
ghost use Rattle.mk_search.specs.Occurrences.{BelongsTo};
ghost use Rattle.mk_open_codes.specs.Fronts.{IsNeedOfAll};
ghost use Rattle.mk_search.specs.Stages.{ComesTo, Finds, IsReady, IsRecord, OccursIn, OwesFrom, debt_at, open_in, pairs_from};

use crate::occurrences::Occurrences;
use crate::records::next_record;
use crate::stages::{Came, Row, Stage};
use mk_expansions::{has_slots, rest_in};
use mk_index::Shelf;
use mk_model::{Memory, Screen, Steps, Turn};
use std::alloc::Global;
use std::sync::ledger::Ledger;

/// The next key from the place on: its record, and the numbers behind that of the record.
pub fn next_key<'a, L: Ledger>(
    alloc: Global,
    shelf: &'a Shelf,
    need: &Option<Screen>,
    place: &[u32],
    stage: Stage<'a>,
    all: &mut Occurrences<'a>,
    steps: &mut Steps<L>,
) -> Result<Option<Row<'a>>, Memory>
    requires belongs { BelongsTo all.old.query.now all.old }
    requires need { IfSome need.now (IsNeedOfAll all.old.query.now) }
    requires ready { IsReady shelf.now.rows all.old.query.now place.now stage all.old }
    ensures found { IfOk result (Finds shelf.now.rows all.old.query.now place.now (pairs_from stage.entry all.old) (open_in stage.entry all.old) steps.old steps.new all.new) }
    ensures belongs { BelongsTo all.old.query.now all.new }
    ensures steps { steps.old ≤ steps.new }
{
    match stage {
        Stage::Ended => Ok(None),
        Stage::From(from) => in_records(alloc, shelf, need, place, from, all, steps),
        Stage::In(row) => {
            if all.next(alloc, row, rest_in(place, row.number), steps)? {
                return Ok(Some(row));
            }
            let Some(from) = following(shelf, row.number) else {
                return Ok(None);
            };
            in_records(alloc, shelf, need, place, from, all, steps)
        }
    }
}

// The next key in the records from a number on.
fn in_records<'a, L: Ledger>(
    alloc: Global,
    shelf: &'a Shelf,
    need: &Option<Screen>,
    place: &[u32],
    from: u32,
    all: &mut Occurrences<'a>,
    steps: &mut Steps<L>,
) -> Result<Option<Row<'a>>, Memory>
    requires belongs { BelongsTo all.old.query.now all.old }
    requires need { IfSome need.now (IsNeedOfAll all.old.query.now) }
    requires at { AtFronts (IsRecord shelf.now.rows) (OccursIn shelf.now.rows all.old.query.now) place.now (from ∷ []) }
    ensures found { IfOk result (Finds shelf.now.rows all.old.query.now place.now (from ∷ []) false steps.old steps.new all.new) }
    ensures belongs { BelongsTo all.old.query.now all.new }
    ensures steps { steps.old ≤ steps.new }
{
    let mut next = from;
    'records: loop {
        let Some(number) = next_record(shelf, all.query, need, next) else {
            return Ok(None);
        };
        let Some(mol) = shelf.get(number) else {
            return Ok(None);
        };
        let screen = shelf.screen(number);
        let row = Row {
            number,
            mol,
            screen,
        };
        let rest = rest_in(place, number);
        all.restart(rest)?;
        if all.next(alloc, row, rest, steps)? {
            return Ok(Some(row));
        }
        let Some(above) = following(shelf, number) else {
            return Ok(None);
        };
        next = above;
    }
}

// ---- turns

/// A turn from the place on: in the record that is open, or in the next one that has some. Where the
/// root has a slot a record is taken up, and that is a turn of its own.
pub fn next_turn<'a, L: Ledger>(
    alloc: Global,
    shelf: &'a Shelf,
    need: &Option<Screen>,
    place: &[u32],
    stage: Stage<'a>,
    all: &mut Occurrences<'a>,
    steps: &mut Steps<L>,
) -> Result<Came<'a>, Memory>
    requires belongs { BelongsTo all.old.query.now all.old }
    requires need { IfSome need.now (IsNeedOfAll all.old.query.now) }
    requires ready { IsReady shelf.now.rows all.old.query.now place.now stage all.old }
    ensures comes { IfOk result (ComesTo shelf.now.rows all.old.query.now place.now (debt_at stage.entry place.now all.old) (pairs_from stage.entry all.old) (open_in stage.entry all.old) steps.old steps.new all.new) }
    ensures belongs { BelongsTo all.old.query.now all.new }
    ensures steps { steps.old ≤ steps.new }
{
    match stage {
        Stage::Ended => Ok(Came::Nowhere),
        Stage::From(from) => turn_in_records(alloc, shelf, need, place, from, all, steps),
        Stage::In(row) => match all.advance(alloc, row, rest_in(place, row.number), steps)? {
            Turn::Item => Ok(Came::Out(row)),
            Turn::Moved => Ok(Came::On(row)),
            Turn::End => {
                let Some(from) = following(shelf, row.number) else {
                    return Ok(Came::Nowhere);
                };
                turn_in_records(alloc, shelf, need, place, from, all, steps)
            }
        },
    }
}

// A turn in the records from a number on.
fn turn_in_records<'a, L: Ledger>(
    alloc: Global,
    shelf: &'a Shelf,
    need: &Option<Screen>,
    place: &[u32],
    from: u32,
    all: &mut Occurrences<'a>,
    steps: &mut Steps<L>,
) -> Result<Came<'a>, Memory>
    requires belongs { BelongsTo all.old.query.now all.old }
    requires need { IfSome need.now (IsNeedOfAll all.old.query.now) }
    requires at { AtFronts (IsRecord shelf.now.rows) (OccursIn shelf.now.rows all.old.query.now) place.now (from ∷ []) }
    ensures comes { IfOk result (λ came. (owed : ℕ) → OwesFrom place.now from owed → ComesTo shelf.now.rows all.old.query.now place.now owed (from ∷ []) false steps.old steps.new all.new came) }
    ensures belongs { BelongsTo all.old.query.now all.new }
    ensures steps { steps.old ≤ steps.new }
{
    let mut next = from;
    'records: loop {
        let Some(number) = next_record(shelf, all.query, need, next) else {
            return Ok(Came::Nowhere);
        };
        let Some(mol) = shelf.get(number) else {
            return Ok(Came::Nowhere);
        };
        let screen = shelf.screen(number);
        let row = Row {
            number,
            mol,
            screen,
        };
        let rest = rest_in(place, number);
        all.restart(rest)?;
        if has_slots(all.query) {
            return Ok(Came::On(row));
        }
        match all.advance(alloc, row, rest, steps)? {
            Turn::Item => return Ok(Came::Out(row)),
            Turn::Moved => return Ok(Came::On(row)),
            Turn::End => {}
        }
        let Some(above) = following(shelf, number) else {
            return Ok(Came::Nowhere);
        };
        next = above;
    }
}

/// The number behind one, where a record is held from there on.
pub fn following(shelf: &Shelf, number: u32) -> Option<u32>
    ensures some { IfSome result (λ next. next ≡ number + 1) }
    ensures none { IfNone result (NoneFrom (number + 1) shelf.now.rows) }
{
    let Some(greatest) = shelf.last_row() else {
        return None;
    };
    if number >= greatest {
        return None;
    }
    Some(number + 1)
}
