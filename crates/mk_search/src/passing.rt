// Fronts that are passed over: numbers with which codes begin, and that a molecule can't hold.
ghost use Rattle.std.specs.Prelude.{◌≡◌, ◌≤◌, ◌<◌, [], false, All, IfOk, IfSome, IsTrue};
ghost use Rattle.mk_model.specs.Codes.{IsCode};
ghost use Rattle.mk_model.specs.Molecules.{Molecule};
ghost use Rattle.mk_model.specs.Queries.{QueryView};
ghost use Rattle.mk_model.specs.Screens.{IsScreenOf};
ghost use Rattle.mk_open_codes.specs.Fronts.{IsNeedOfAll};
ghost use Rattle.mk_fronts.specs.Fronts.{BeginsWithNone};
ghost use Rattle.mk_search.specs.Passing.{FrontsOf, IsBehindFront, KnowOf};

use crate::stages::Row;
use mk_fronts::Fronts;
use mk_model::{Memory, Query, Screen};
use std::alloc::Global;

/// The fronts of a query that has several codes. A single code has none to pass over.
pub fn fronts_of(alloc: Global, query: &Query, several: bool) -> Result<Option<Fronts<'_>>, Memory>
    ensures { IfOk result (FrontsOf query.now) }
{
    if !several {
        return Ok(None);
    }
    Ok(Some(Fronts::new(alloc, query)?))
}

/// What all codes need: what their expansions have in common, where that was found, and else what
/// the fronts need.
pub fn need_by(query: &Query, common: Option<Screen>, fronts: &Option<Fronts<'_>>) -> Option<Screen>
    requires common { IfSome common (IsNeedOfAll query.now) }
    requires of { FrontsOf query.now fronts.now }
    ensures { IfSome result (IsNeedOfAll query.now) }
{
    if let Some(need) = common {
        return Some(need);
    }
    let Some(its) = fronts else {
        return None;
    };
    Some(*its.need())
}

/// Goes to another molecule: what the fronts know of one is forgotten. Which slot is asked first goes
/// by the place, so that searches that are taken up again don't ask the same slots alone.
pub fn forget(fronts: &mut Option<Fronts<'_>>, place: &[u32])
    ensures know { (mol : Molecule) → KnowOf mol fronts.new }
    ensures of { (query : QueryView) → FrontsOf query fronts.old → FrontsOf query fronts.new }
{
    let Some(its) = fronts else {
        return;
    };
    its.restart(sum_of(place));
}

// The sum of the numbers of a place, as far as it can be counted.
fn sum_of(place: &[u32]) -> usize {
    let mut sum = 0usize;
    for number in place {
        sum = sum.wrapping_add(*number as usize);
    }
    sum
}

/// With how many numbers the code begins a front that the molecule can't hold, where one is found. What
/// is asked is paid from the purse.
pub fn passed<'a>(
    alloc: Global,
    query: &Query,
    code: &[u32],
    row: Row<'a>,
    fronts: &mut Option<Fronts<'a>>,
    purse: &mut u64,
) -> Result<Option<usize>, Memory>
    requires code { IsCode query.now 0 code.now }
    requires screen { IsScreenOf row.mol.now row.screen.now }
    requires of { FrontsOf query.now fronts.old }
    requires know { KnowOf row.mol.now fronts.old }
    ensures passed { IfOk result (λ found. IfSome found (BeginsWithNone query.now row.entry.mol.now code.now)) }
    ensures know { KnowOf row.entry.mol.now fronts.new }
    ensures of { FrontsOf query.now fronts.new }
    ensures paid { purse.new ≤ purse.old }
{
    let Some(its) = fronts else {
        return Ok(None);
    };
    its.passed(alloc, code, row.mol, row.screen, purse)
}

/// Puts the place behind all codes that begin with a front: no number of a code is as great as the
/// one that stands behind the front there.
pub fn put_behind_front(numbers: &mut Vec<u32>, front: &[u32]) -> Result<(), Memory>
    ensures { IfOk result (λ _. IsBehindFront front.now numbers.new.items) }
{
    numbers.clear();
    numbers.extend_from_slice(front)?;
    numbers.push(u32::MAX)?;
    Ok(())
}
