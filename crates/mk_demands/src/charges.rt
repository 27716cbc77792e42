// The charges and radicals of a table's atoms.
ghost use Rattle.std.specs.Prelude.{◌≡◌, ◌≤◌, ◌∷◌, [], pos, negsuc, All, IfOk, length};
ghost use Rattle.mk_demands.specs.Charges.{AreElectrons, charge_of_column, charge_pairs, charges_of, gives_values, HasRadical, lists_values, radical_of_column, radical_pairs, radicals_of};
ghost use Rattle.mk_demands.specs.ChargePutting.{AreOfLines, ArePut, IsOfLine};
ghost use Rattle.mk_demands.specs.Numbers.{IsAtom, IsWithin};
ghost use Rattle.mk_demands.specs.Values.{AreForAtoms, HasKnownValues, HaveValues, NamesAtoms};

use crate::numbers::natural;
use mk_props::{Pair, Property};
use mk_tables::{RawAtom, RawTable};
use mk_text::Memory;
use std::alloc::Global;

/// What an atom has more or fewer of than the element, and whether some of it are alone: 2 is a
/// doublet, 1 and 3 are the singlet and the triplet, and 0 is none.
#[derive(Clone, Copy, Debug, PartialEq, Eq)]
pub struct Electrons {
    pub charge: i8,
    pub radical: u8,
}

/// The charges and radicals of the atoms: those that properties list, or those of the atom lines
/// where none lists any.
pub fn charges_and_radicals(alloc: Global, table: &RawTable) -> Result<Vec<Electrons>, Memory>
    requires for_atoms { All (NamesAtoms (length table.now.atoms)) table.now.props }
    requires values { All HasKnownValues table.now.props }
    ensures are { IfOk result (λ list. AreElectrons table.now list.items) }
    ensures small { IfOk result (λ list. All HasRadical list.items) }
{
    let props = table.props.as_slice();
    let mut list = of_lines(alloc, table.atoms.as_slice(), lists_values(props))?;
    put_values(&mut list, props);
    Ok(list)
}

// Whether a property gives charges or radicals.
fn lists_values(props: &[Property]) -> bool
    ensures { result ≡ lists_values props.now }
{
    for property in props {
        if gives_values(property) {
            return true;
        }
    }
    false
}

fn gives_values(property: &Property) -> bool
    ensures { result ≡ gives_values property.now }
{
    match property {
        Property::Charge(_) | Property::Radical(_) => true,
        _ => false,
    }
}

// The charges and radicals of the atom lines, or none where these are set aside.
fn of_lines(alloc: Global, lines: &[RawAtom], aside: bool) -> Result<Vec<Electrons>, Memory>
    ensures lines { IfOk result (λ list. AreOfLines aside lines.now list.items) }
    ensures small { IfOk result (λ list. All HasRadical list.items) }
{
    let mut list = Vec::with_capacity(alloc, lines.len())?;
    for line in lines {
        list.push(of_line(line, aside))?;
    }
    Ok(list)
}

fn of_line(line: &RawAtom, aside: bool) -> Electrons
    ensures line { IsOfLine aside line.now result }
    ensures small { HasRadical result }
{
    let column = if aside { 0 } else { natural(line.charge) };
    Electrons {
        charge: charge_of_column(column),
        radical: radical_of_column(column),
    }
}

fn charge_of_column(column: u32) -> i8
    ensures { result ≡ charge_of_column column }
{
    match column {
        1 => 3,
        2 => 2,
        3 => 1,
        5 => -1,
        6 => -2,
        7 => -3,
        _ => 0,
    }
}

fn radical_of_column(column: u32) -> u8
    ensures radical { pos result ≡ radical_of_column column }
    ensures small { result ≤ 3 }
{
    if column == 4 { 2 } else { 0 }
}

// Puts the charges and radicals that the properties list.
fn put_values(list: &mut [Electrons], props: &[Property])
    requires for_atoms { All (NamesAtoms (length list.old)) props.now }
    requires values { All HasKnownValues props.now }
    requires small { All HasRadical list.old }
    ensures put { ArePut (charge_pairs props.now) (radical_pairs props.now) list.old list.new }
    ensures small { All HasRadical list.new }
{
    for property in props {
        put_property(list, property);
    }
}

fn put_property(list: &mut [Electrons], property: &Property)
    requires for_atoms { NamesAtoms (length list.old) property.now }
    requires values { HasKnownValues property.now }
    requires small { All HasRadical list.old }
    ensures put { ArePut (charges_of property.now) (radicals_of property.now) list.old list.new }
    ensures small { All HasRadical list.new }
{
    match property {
        Property::Charge(pairs) => put_charges(list, pairs.as_slice()),
        Property::Radical(pairs) => put_radicals(list, pairs.as_slice()),
        _ => {}
    }
}

fn put_charges(list: &mut [Electrons], pairs: &[Pair])
    requires for_atoms { AreForAtoms (length list.old) pairs.now }
    requires values { HaveValues (negsuc 14) (pos 15) pairs.now }
    requires small { All HasRadical list.old }
    ensures put { ArePut pairs.now [] list.old list.new }
    ensures small { All HasRadical list.new }
{
    for pair in pairs {
        put_charge(list, *pair);
    }
}

fn put_charge(list: &mut [Electrons], pair: Pair)
    requires for_atoms { IsAtom (length list.old) pair.atom }
    requires value { IsWithin (negsuc 14) (pos 15) pair.value }
    requires small { All HasRadical list.old }
    ensures put { ArePut (pair ∷ []) [] list.old list.new }
    ensures small { All HasRadical list.new }
{
    list[natural(pair.atom) as usize - 1].charge = charge_of_value(pair.value);
}

fn charge_of_value(value: i32) -> i8
    requires { IsWithin (negsuc 14) (pos 15) value }
    ensures { result ≡ value }
{
    value as i8
}

fn put_radicals(list: &mut [Electrons], pairs: &[Pair])
    requires for_atoms { AreForAtoms (length list.old) pairs.now }
    requires values { HaveValues (pos 0) (pos 3) pairs.now }
    requires small { All HasRadical list.old }
    ensures put { ArePut [] pairs.now list.old list.new }
    ensures small { All HasRadical list.new }
{
    for pair in pairs {
        put_radical(list, *pair);
    }
}

fn put_radical(list: &mut [Electrons], pair: Pair)
    requires for_atoms { IsAtom (length list.old) pair.atom }
    requires value { IsWithin (pos 0) (pos 3) pair.value }
    requires small { All HasRadical list.old }
    ensures put { ArePut [] (pair ∷ []) list.old list.new }
    ensures small { All HasRadical list.new }
{
    list[natural(pair.atom) as usize - 1].radical = pair.value as u8;
}
