// The next record that may have a key.
ghost use Rattle.std.specs.Prelude.{◌≡◌, ◌<◌, IfNone, IfSome};
ghost use Rattle.mk_index.specs.Postings.{HaveScreens, IsNextCandidate, NoCandidate};
ghost use Rattle.mk_open_codes.specs.Fronts.{IsNeedOfAll};
ghost use Rattle.mk_search.specs.Records.{IsNextRecord, NoRecord};

use mk_index::Shelf;
use mk_model::{Query, Screen, Steps};
use std::marker::Brand;
use std::sync::ledger::{Blank, Ledger};

/// The least number from there on of a record that may have keys. Where a need is given, it passes
/// over records whose screens don't cover it.
pub fn next_record(shelf: &Shelf, query: &Query, need: &Option<Screen>, from: u32) -> Option<u32>
    requires { IfSome need.now (IsNeedOfAll query.now) }
    ensures some { IfSome result (IsNextRecord shelf.now.rows query.now from) }
    ensures none { IfNone result (NoRecord shelf.now.rows query.now from) }
{
    match need {
        Some(need) => candidate_from::<Brand>(shelf, need, from, Blank::new(1)),
        None => shelf.next_row(from),
    }
}

// The next record whose screen covers the need. The looks are counted on a ledger of its own.
fn candidate_from<L: Ledger>(shelf: &Shelf, need: &Screen, from: u32, blank: Blank) -> Option<u32>
    requires name { blank.name ≡ L.name }
    requires parts { blank.parts ≡ L.parts }
    requires one { 0 < L.parts }
    ensures some { IfSome result (IsNextCandidate shelf.now.rows need.now from) }
    ensures none { IfNone result (NoCandidate shelf.now.rows need.now from) }
    ensures screens { HaveScreens shelf.now.rows }
{
    let mut looks = Steps::<L>::new(blank);
    shelf.next_candidate(need, from, &mut looks)
}
