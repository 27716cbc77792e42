// The neighbours of sites in their order, in one pass over the properties.
ghost use Rattle.std.specs.Prelude.{◌≡◌, ◌<◌, ◌∷◌, [], pos, IfOk, length, map, slice_index_or};
ghost use Rattle.std.specs.Ordering.{int_eq};
ghost use Rattle.mk_demands.specs.Numbers.{natural};
ghost use Rattle.mk_query.specs.Compiled.{atom_placed};
ghost use Rattle.mk_query.specs.SlotMarks.{AreOrdered, HaveEnds, IsPutAt, ends_near, ends_placed};

use crate::drawn::Near;
use crate::notes::Notes;
use mk_demands::natural;
use mk_props::{Pair, Property, SiteOrder};
use mk_text::Memory;
use std::alloc::Global;

/// The neighbours of a site in their order; `second` is 0 where it has one.
#[derive(Clone, Copy)]
pub struct SiteEnds {
    pub first: u32,
    pub second: u32,
}

/// For each atom its neighbours in the order that a site there gives them, where it has one or two.
pub fn ordered_ends(alloc: Global, notes: &Notes<'_>) -> Result<Vec<SiteEnds>, Memory>
    ensures size { IfOk result (λ ends. length ends.items ≡ length notes.now.table.now.atoms) }
    ensures ordered { IfOk result (λ ends. HaveEnds notes.now.table.now ends.items) }
{
    let mut ends = ends_of(alloc, &notes.standing.near)?;
    put_orders(&mut ends, notes.table.props.as_slice());
    Ok(ends)
}

fn ends_of(alloc: Global, near: &[Near]) -> Result<Vec<SiteEnds>, Memory>
    ensures { IfOk result (λ ends. ends.items ≡ map ends_near near.now) }
{
    let mut ends = Vec::with_capacity(alloc, near.len())?;
    for one in near {
        ends.push(ends_near(*one))?;
    }
    Ok(ends)
}

fn ends_near(near: Near) -> SiteEnds
    ensures { result ≡ ends_near near }
{
    match near {
        Near::One(first) => SiteEnds { first, second: 0 },
        Near::Two(y, z) => {
            if y < z {
                SiteEnds {
                    first: y,
                    second: z,
                }
            } else {
                SiteEnds {
                    first: z,
                    second: y,
                }
            }
        }
        _ => SiteEnds {
            first: 0,
            second: 0,
        },
    }
}

// Puts the orders of the properties in place of what was noted, an earlier one in place of a later
// one.
fn put_orders(ends: &mut Vec<SiteEnds>, props: &[Property])
    ensures { AreOrdered props.now ends.old.items ends.new.items }
{
    for i in (0..props.len()).rev() {
        put_property(ends, &props[i]);
    }
}

fn put_property(ends: &mut Vec<SiteEnds>, property: &Property)
    ensures { AreOrdered (property.now ∷ []) ends.old.items ends.new.items }
{
    if let Property::Order(order) = property {
        let pair = ends_placed(order.entries.as_slice());
        put_at(ends, site_atom(order), pair);
    }
}

// Puts a pair of neighbours at atom n, where there is one.
fn put_at(ends: &mut Vec<SiteEnds>, n: u32, pair: SiteEnds)
    ensures { IsPutAt n pair ends.old.items ends.new.items }
{
    let place = n as usize;
    if place >= 1 && place <= ends.len() {
        ends[place - 1] = pair;
    }
}

fn ends_placed(entries: &[Pair]) -> SiteEnds
    ensures { result ≡ ends_placed entries.now }
{
    SiteEnds {
        first: atom_placed(1, entries),
        second: atom_placed(2, entries),
    }
}

// The atom to which the entries give place k, and 0 where they give it to none.
fn atom_placed(k: u32, entries: &[Pair]) -> u32
    ensures { result ≡ atom_placed k entries.now }
{
    for entry in entries {
        if has_place(k, entry) {
            return placed_atom(entry);
        }
    }
    0
}

fn site_atom(order: &SiteOrder) -> u32
    ensures { result ≡ natural order.now.atom }
{
    natural(order.atom)
}

fn placed_atom(entry: &Pair) -> u32
    ensures { result ≡ natural entry.now.atom }
{
    natural(entry.atom)
}

fn has_place(k: u32, entry: &Pair) -> bool
    ensures { result ≡ int_eq entry.now.value (pos k) }
{
    entry.value >= 0 && natural(entry.value) == k
}
