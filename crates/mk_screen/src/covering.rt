// Whether a screen covers a need.
ghost use Rattle.std.specs.Prelude.{◌≡◌, ◌↔◌, ◌+◌, IsTrue};
ghost use Rattle.mk_model.specs.Screens.{Covers};
ghost use Rattle.mk_screen.specs.Covering.{CoversBits, CoversCounts, HasAll};

use mk_model::{Screen, Steps};
use std::sync::ledger::Ledger;

/// Tells whether a screen covers a need. It counts as one look.
pub fn covers<L: Ledger>(held: &Screen, need: &Screen, looks: &mut Steps<L>) -> bool
    ensures covers { IsTrue result ↔ Covers held.now need.now }
    ensures look { looks.new ≡ looks.old + 1 }
{
    looks.tick();
    is_covered(held, need)
}

/// Tells whether a screen covers a need. It counts nothing: for what is no look at a row of an index.
pub fn is_covered(held: &Screen, need: &Screen) -> bool
    ensures { IsTrue result ↔ Covers held.now need.now }
{
    has_bits(&held.bits, &need.bits) && has_counts(&held.counts, &need.counts)
}

// Whether each bit of the need is set.
fn has_bits(held: &[u64; 8], need: &[u64; 8]) -> bool
    ensures { IsTrue result ↔ CoversBits held.now need.now }
{
    for i in 0..8 {
        if !has_all(held[i], need[i]) {
            return false;
        }
    }
    true
}

// Whether a word has all bits of another.
fn has_all(held: u64, need: u64) -> bool
    ensures { IsTrue result ↔ HasAll held need }
{
    need & !held == 0
}

// Whether each count is as great as the need's.
fn has_counts(held: &[u8; 16], need: &[u8; 16]) -> bool
    ensures { IsTrue result ↔ CoversCounts held.now need.now }
{
    for i in 0..16 {
        if need[i] > held[i] {
            return false;
        }
    }
    true
}
