// What the expansions of all codes need of a screen.
ghost use Rattle.std.specs.Prelude.{◌≡◌, [], IfOk, IfSome};
ghost use Rattle.mk_model.specs.Screens.{Covers};
ghost use Rattle.mk_screen.specs.Covering.{CoversBits, CoversCounts};
ghost use Rattle.mk_expansions.specs.Kept.{AreKept};
ghost use Rattle.mk_search.specs.Passing.{FrontsOf};
ghost use Rattle.mk_open_codes.specs.Fronts.{IsNeedOfAll};

use crate::passing::{fronts_of, need_by};
use mk_choice::Codes;
use mk_expansions::{Kept, expansion_by, keep};
use mk_fronts::Fronts;
use mk_model::{Memory, Query, Screen, Turn};
use std::alloc::Global;

// How many codes may share a need at most.
const MOST_CODES: usize = 64;

// How many turns of the codes are taken at most before all of them are known, times the slots of a
// template with many.
const MOST_SLOTS: usize = 16_384;

// What counts as few slots: so there are 512 turns at most.
const FEW_SLOTS: usize = 32;

// How many atoms the expansions of the codes may have before one more is made.
const MOST_ATOMS: u32 = 2048;

// What all codes need, where none was met: each need is less.
const NEED_OF_NONE: Screen = Screen {
    counts: [u8::MAX; 16],
    bits: [u64::MAX; 8],
};

/// The fronts that are asked, and what all codes need of a screen. The expansions of few codes are kept.
pub fn fronts_and_need<'a>(
    alloc: Global,
    query: &'a Query,
    codes: &mut Codes<'_>,
    kept: &mut Kept,
) -> Result<(Option<Fronts<'a>>, Option<Screen>), Memory>
    requires query { codes.old.query ≡ query.now }
    requires first { codes.old.place ≡ [] }
    requires kept { AreKept query.now kept.old }
    ensures query { IfOk result (λ _. codes.new.query ≡ query.now) }
    ensures kept { IfOk result (λ _. AreKept query.now kept.new) }
    ensures fronts { IfOk result (λ found. FrontsOf query.now found.0) }
    ensures need { IfOk result (λ found. IfSome found.1 (IsNeedOfAll query.now)) }
{
    let (common, several) = need_of_all(alloc, query, codes, kept)?;
    let fronts = fronts_of(alloc, query, several)?;
    let need = need_by(query, common, &fronts);
    Ok((fronts, need))
}

// What the expansions of all codes need, where the codes are few, small and soon found, and whether
// there may be several. These expansions are kept.
fn need_of_all(
    alloc: Global,
    query: &Query,
    codes: &mut Codes<'_>,
    kept: &mut Kept,
) -> Result<(Option<Screen>, bool), Memory>
    requires query { codes.old.query ≡ query.now }
    requires first { codes.old.place ≡ [] }
    requires kept { AreKept query.now kept.old }
    ensures query { IfOk result (λ _. codes.new.query ≡ query.now) }
    ensures kept { IfOk result (λ _. AreKept query.now kept.new) }
    ensures need { IfOk result (λ found. IfSome found.0 (IsNeedOfAll query.now)) }
{
    // The reader's clause says what every query keeps.
    let _kept = query.templates();
    let mut need = NEED_OF_NONE;
    let (mut turns, mut count, mut atoms) = (0usize, 0usize, 0u32);
    let most = most_turns(query);
    while turns < most && count < MOST_CODES && atoms < MOST_ATOMS {
        turns += 1;
        match codes.advance() {
            Turn::End => return Ok((Some(need), count > 1)),
            Turn::Moved => continue,
            Turn::Item => {}
        }
        let expansion = expansion_by(alloc, query, codes.item(), kept)?;
        count += 1;
        atoms += expansion.graph.atom_count();
        need = meet(&need, &expansion.need);
        keep(expansion, kept)?;
    }
    // Not all codes were met, so what these need isn't what all need.
    Ok((None, true))
}

// How many turns of the codes are taken at most. The more slots a template has, the longer a turn may
// take, and the fewer they are.
fn most_turns(query: &Query) -> usize {
    let mut most = 0;
    for template in query.templates() {
        most = most.max(template.slots().len());
    }
    MOST_SLOTS / most.max(FEW_SLOTS)
}

// What two needs have in common: what covers one of them covers it.
fn meet(a: &Screen, b: &Screen) -> Screen
    ensures first { Covers a.now result }
    ensures second { Covers b.now result }
{
    Screen {
        counts: least_counts(&a.counts, &b.counts),
        bits: common_bits(&a.bits, &b.bits),
    }
}

// The lesser of both counts at each place.
fn least_counts(a: &[u8; 16], b: &[u8; 16]) -> [u8; 16]
    ensures first { CoversCounts a.now result }
    ensures second { CoversCounts b.now result }
{
    let mut counts = [0; 16];
    for i in 0..16 {
        counts[i] = a[i].min(b[i]);
    }
    counts
}

// The bits that are set in both.
fn common_bits(a: &[u64; 8], b: &[u64; 8]) -> [u64; 8]
    ensures first { CoversBits a.now result }
    ensures second { CoversBits b.now result }
{
    let mut bits = [0; 8];
    for i in 0..8 {
        bits[i] = a[i] & b[i];
    }
    bits
}
