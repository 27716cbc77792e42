// Numbers behind a blank, and entries behind their count.
ghost use Rattle.std.specs.Prelude.{◌≡◌, ◌≤◌, ◌<◌, ◌+◌, ◌*◌, ◌^◌, IfSome};
ghost use Rattle.mk_props.specs.Reading.{Gives, number_of, count_of, pair_of, pairs_of, link_of, links_of, order_of};

use crate::columns::is_blank_at;
use crate::fault::LineFault;
use crate::property::{LinkEntry, Links, Pair, Pairs, SiteOrder};
use mk_text::field;
use std::alloc::Global;

// A blank in this column, and a number in the three after it.
#[tactic(auto, unfolding(crate::specs::Reading::number_of))]
pub fn number_at(line: &[u8], at: usize) -> Option<i32>
    requires first { 1 ≤ at }
    requires room { at + 3 < 2 ^ 64 }
    ensures { result ≡ number_of line.now at }
{
    if !is_blank_at(line, at) {
        return None;
    }
    field(line, at + 1, at + 3)
}

// The number from 1 to `most` in the three columns from `at` on.
#[tactic(auto, unfolding(crate::specs::Reading::count_of))]
pub fn count_at(line: &[u8], at: usize, most: usize) -> Option<usize>
    requires first { 1 ≤ at }
    requires room { at + 2 < 2 ^ 64 }
    ensures value { result ≡ count_of most line.now at }
    ensures no_more { IfSome result (λ count. count ≤ most) }
{
    let count = field(line, at, at + 2)?;
    if count < 1 {
        return None;
    }
    let count = count as usize;
    if count > most {
        return None;
    }
    Some(count)
}

//  aaa vvv   a blank, the atom (3), a blank, the value (3)
#[tactic(auto, unfolding(crate::specs::Reading::pair_of))]
fn pair_at(line: &[u8], at: usize) -> Option<Pair>
    requires first { 1 ≤ at }
    requires room { at + 7 < 2 ^ 64 }
    ensures { result ≡ pair_of line.now at }
{
    let atom = number_at(line, at)?;
    let value = number_at(line, at + 4)?;
    Some(Pair { atom, value })
}

// nnn aaa vvv ..   the count (3), and eight columns for each pair
#[tactic(auto, unfolding(crate::specs::Reading::pairs_of))]
pub fn pairs(alloc: Global, line: &[u8], at: usize, most: usize) -> Result<Pairs, LineFault>
    requires first { 1 ≤ at }
    requires room { at + 2 + 8 * most < 2 ^ 64 }
    ensures { Gives result (pairs_of most line.now at) }
{
    let Some(count) = count_at(line, at, most) else {
        return Err(LineFault::Bad);
    };
    let mut pairs = Pairs::with_room(alloc, count)?;
    for i in 0..count {
        let Some(pair) = pair_at(line, at + 3 + 8 * i) else {
            return Err(LineFault::Bad);
        };
        pairs.push(pair)?;
    }
    Ok(pairs)
}

//  aaa vvv bbb ccc   four times a blank and a number (3): the link atom, its most, and its two
//                    neighbours
#[tactic(auto, unfolding(crate::specs::Reading::link_of))]
fn link_at(line: &[u8], at: usize) -> Option<LinkEntry>
    requires first { 1 ≤ at }
    requires room { at + 15 < 2 ^ 64 }
    ensures { result ≡ link_of line.now at }
{
    let atom = number_at(line, at)?;
    let most = number_at(line, at + 4)?;
    let from = number_at(line, at + 8)?;
    let to = number_at(line, at + 12)?;
    Some(LinkEntry {
        atom,
        most,
        from,
        to,
    })
}

// M  LINnn4 aaa vvv bbb ccc ..   columns 7-9 the count, and sixteen columns for each entry
#[tactic(auto, unfolding(crate::specs::Reading::links_of))]
pub fn links(alloc: Global, line: &[u8]) -> Result<Links, LineFault>
    ensures { Gives result (links_of line.now) }
{
    let Some(count) = count_at(line, 7, 4) else {
        return Err(LineFault::Bad);
    };
    let mut links = Links::with_room(alloc, count)?;
    for i in 0..count {
        let Some(link) = link_at(line, 10 + 16 * i) else {
            return Err(LineFault::Bad);
        };
        links.push(link)?;
    }
    Ok(links)
}

// M  AAL aaann2 bbb ooo ..   columns 8-10 the site, 11-13 the count; per entry a blank, neighbour
//                            (3), a blank, place (3)
#[tactic(auto, unfolding(crate::specs::Reading::order_of))]
pub fn order(alloc: Global, line: &[u8]) -> Result<SiteOrder, LineFault>
    ensures { Gives result (order_of line.now) }
{
    let Some(atom) = number_at(line, 7) else {
        return Err(LineFault::Bad);
    };
    let entries = pairs(alloc, line, 11, 2)?;
    Ok(SiteOrder { atom, entries })
}
