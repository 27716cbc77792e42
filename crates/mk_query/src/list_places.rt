// The lists of elements that are in force, in one pass over the lists and one over the properties.
ghost use Rattle.std.specs.Prelude.{◌≡◌, ◌≤◌, ◌<◌, IfOk, length};
ghost use Rattle.mk_demands.specs.Numbers.{natural};
ghost use Rattle.mk_query.specs.Drawn.{all_lists};
ghost use Rattle.mk_query.specs.ListMarks.{AreInForce, IsListNoted, IsPlaceAt};

use mk_demands::natural;
use mk_props::{AtomList, Property};
use mk_tables::{RawList, RawTable};
use mk_text::Memory;
use std::alloc::Global;

/// The place of the list of elements that is in force for an atom.
#[derive(Clone, Copy)]
pub enum ListPlace {
    Nothing,
    /// An atom-list line, counted from 0.
    Line(usize),
    /// A property, counted from 0.
    Property(usize),
}

/// For each atom the place of the list that is in force for it.
pub fn list_places(alloc: Global, table: &RawTable) -> Result<Vec<ListPlace>, Memory>
    ensures size { IfOk result (λ places. length places.items ≡ length table.now.atoms) }
    ensures in_force { IfOk result (λ places. AreInForce table.now.lists table.now.props (all_lists table.now) places.items) }
{
    let mut places = vec![in alloc; ListPlace::Nothing; table.atoms.as_slice().len()]?;
    let lists = table.lists.as_slice();
    for i in 0..lists.len() {
        put_at(&mut places, line_atom(&lists[i]), ListPlace::Line(i));
    }
    let props = table.props.as_slice();
    for j in 0..props.len() {
        put_property(&mut places, &props[j], j);
    }
    Ok(places)
}

// Notes the list that property j is; any other property changes nothing.
fn put_property(places: &mut Vec<ListPlace>, property: &Property, j: usize)
    ensures size { length places.new.items ≡ length places.old.items }
    ensures noted { IsListNoted property.now j places.old.items places.new.items }
{
    if let Property::List(list) = property {
        put_at(places, symbols_atom(list), ListPlace::Property(j));
    }
}

// Puts a place at atom n, where there is one.
fn put_at(places: &mut Vec<ListPlace>, n: u32, put: ListPlace)
    ensures { IsPlaceAt n put places.old.items places.new.items }
{
    let place = n as usize;
    if place >= 1 && place <= places.len() {
        places[place - 1] = put;
    }
}

fn line_atom(list: &RawList) -> u32
    ensures { result ≡ natural list.now.atom }
{
    natural(list.atom)
}

fn symbols_atom(list: &AtomList) -> u32
    ensures { result ≡ natural list.now.atom }
{
    natural(list.atom)
}
