// How many atoms there are of each element that is counted.
ghost use Rattle.std.specs.Prelude.{◌≡◌, ◌≤◌, map};
ghost use Rattle.mk_model.specs.Screens.{capped_count, counted};
ghost use Rattle.mk_screen.specs.Counting.{counted_at, one_more, place_in};

use crate::drawn::Drawn;

/// The counts of all elements that are counted.
pub fn counts_of<D: Drawn>(drawn: &D) -> [u8; 16]
    ensures { result ≡ map (capped_count (D.shown drawn.now).elements) counted }
{
    let mut counts = [0; 16];
    for k in 0..drawn.size() {
        count_one(&mut counts, place_of(drawn.element(k + 1)));
    }
    counts
}

// Counts one atom more at a place, up to 15.
fn count_one(counts: &mut [u8; 16], at: usize)
    ensures { counts.new ≡ counted_at counts.old at }
{
    if at < 16 {
        counts[at] = one_more(counts[at]);
    }
}

// One more, up to 15.
fn one_more(count: u8) -> u8
    ensures { result ≡ one_more count }
{
    if count < 15 { count + 1 } else { count }
}

// The place of an element among those that are counted, or 16.
fn place_of(element: u8) -> usize
    ensures { result ≡ place_in element counted }
{
    match element {
        5 => 0,
        6 => 1,
        7 => 2,
        8 => 3,
        9 => 4,
        11 => 5,
        12 => 6,
        14 => 7,
        15 => 8,
        16 => 9,
        17 => 10,
        19 => 11,
        33 => 12,
        34 => 13,
        35 => 14,
        53 => 15,
        _ => 16,
    }
}
