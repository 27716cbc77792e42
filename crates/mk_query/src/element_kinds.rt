// The kinds of atoms that lists of elements tell.
ghost use Rattle.std.specs.Prelude.{◌≡◌, pos, All, IfOk, map};
ghost use Rattle.mk_elements.specs.Symbols.{NamesElement};
ghost use Rattle.mk_demands.specs.Numbers.{IsWithin, natural};
ghost use Rattle.mk_query.specs.Checks.{IsElementName};
ghost use Rattle.mk_query.specs.Compiled.{NameElements};
ghost use Rattle.mk_query.specs.Drawn.{by_numbers};
ghost use Rattle.mk_query.specs.KindMarks.{AreKnownAt, AreKnownIn, IsKindAt, IsKindBy, IsKindIn, kind_with};

use crate::list_places::ListPlace;
use mk_demands::natural;
use mk_elements::number_of;
use mk_model::{Elements, Kind};
use mk_props::Property;
use mk_tables::{RawList, RawTable};
use mk_text::{Bytes, Memory};
use std::alloc::Global;

/// The kind that the list at a place tells, where there is one.
pub fn listed_kind(alloc: Global, table: &RawTable, place: ListPlace) -> Result<Kind, Memory>
    requires { AreKnownAt table.now.lists table.now.props place }
    ensures { IfOk result (IsKindAt table.now.lists table.now.props place) }
{
    match place {
        ListPlace::Nothing => Ok(Kind::Anything),
        ListPlace::Line(i) => line_kind(alloc, &table.lists.as_slice()[i]),
        ListPlace::Property(i) => property_kind(alloc, &table.props.as_slice()[i]),
    }
}

// The kind that an atom-list line tells.
fn line_kind(alloc: Global, list: &RawList) -> Result<Kind, Memory>
    requires { All (IsWithin (pos 1) (pos 118)) list.now.numbers }
    ensures { IfOk result (IsKindIn (by_numbers list.now)) }
{
    let elements = numbered_elements(alloc, list.numbers.as_slice())?;
    Ok(kind_with(list.not, elements))
}

// The kind that a property tells, where it is a list.
fn property_kind(alloc: Global, property: &Property) -> Result<Kind, Memory>
    requires { AreKnownIn property.now }
    ensures { IfOk result (IsKindBy property.now) }
{
    if let Property::List(list) = property {
        let elements = named_elements(alloc, list.symbols.as_slice())?;
        return Ok(kind_with(list.not, elements));
    }
    Ok(Kind::Anything)
}

fn kind_with(not: bool, elements: Elements) -> Kind
    ensures { result ≡ kind_with not elements }
{
    if not {
        Kind::NoneOf(elements)
    } else {
        Kind::OneOf(elements)
    }
}

fn numbered_elements(alloc: Global, numbers: &[i32]) -> Result<Elements, Memory>
    requires { All (IsWithin (pos 1) (pos 118)) numbers.now }
    ensures { IfOk result (λ elements. elements ≡ map natural numbers.now) }
{
    let mut elements = Elements::new(alloc);
    for i in 0..numbers.len() {
        elements.push(numbered_element(&numbers[i]))?;
    }
    Ok(elements)
}

fn numbered_element(number: &i32) -> u8
    requires { IsWithin (pos 1) (pos 118) number.now }
    ensures { result ≡ natural number.now }
{
    let z = *number;
    z as u8
}

fn named_elements(alloc: Global, symbols: &[Bytes]) -> Result<Elements, Memory>
    requires { All IsElementName symbols.now }
    ensures { IfOk result (NameElements symbols.now) }
{
    let mut elements = Elements::new(alloc);
    for symbol in symbols {
        elements.push(named_element(symbol.as_slice()))?;
    }
    Ok(elements)
}

fn named_element(symbol: &[u8]) -> u8
    requires { IsElementName symbol.now }
    ensures { NamesElement symbol.now result }
{
    number_of(symbol).unwrap()
}
