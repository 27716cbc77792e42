// The property lines, atom by atom. Each has one entry.
ghost use Rattle.std.specs.Prelude.{◌≡◌, ◌≤◌, ◌++◌, ◌∷◌, [], pos, All, IfOk, OnOk, length, map, if◌then◌else◌};
ghost use Rattle.mk_model.specs.Molecules.{IsElement};
ghost use Rattle.mk_model.specs.Tests.{IsKindInRange, IsTestInRange};
ghost use Rattle.mk_enum.specs.Steps.{property_of};
ghost use Rattle.mk_enum.specs.StructureTables.{atom_entries, element_symbol, entries_from, entry, list_entry, symbol_list};

use mk_elements::symbol_of;
use mk_model::{AtomTest, GraphAtom, Kind, Memory};
use mk_props::{AtomList, Pair, Pairs, Property, Symbols};
use mk_tables::Properties;
use mk_text::Bytes;
use std::alloc::Global;

/// What a property line with one value an atom says of it.
#[derive(Clone, Copy, Debug)]
pub enum Thing {
    Charge,
    Radical,
    RingBonds,
    Substitution,
    Unsaturation,
}

/// The property lines of all atoms.
pub fn entries_of(alloc: Global, atoms: &[GraphAtom]) -> Result<Properties, Memory>
    requires few { length atoms.now ≤ 512 }
    requires tests { All (λ atom. IsTestInRange atom.test) atoms.now }
    ensures { IfOk result (λ props. props ≡ entries_from 1 atoms.now) }
{
    let mut props = Properties::new(alloc);
    for i in 0..atoms.len() {
        push_entries(alloc, &mut props, i as u32 + 1, &atoms[i].test)?;
    }
    Ok(props)
}

// Appends the lines of one atom.
fn push_entries(
    alloc: Global,
    props: &mut Properties,
    x: u32,
    test: &AtomTest,
) -> Result<(), Memory>
    requires few { x ≤ 512 }
    requires kind { IsKindInRange test.now.kind }
    ensures { OnOk result (props.new ≡ props.old ++ atom_entries x test.now) }
{
    push_entry(alloc, props, x, Thing::Charge, i32::from(test.charge))?;
    push_entry(alloc, props, x, Thing::Radical, i32::from(test.radical))?;
    push_entry(
        alloc,
        props,
        x,
        Thing::RingBonds,
        i32::from(test.ring_bonds),
    )?;
    push_entry(
        alloc,
        props,
        x,
        Thing::Substitution,
        i32::from(test.substitution),
    )?;
    push_entry(alloc, props, x, Thing::Unsaturation, flag(test.unsaturated))?;
    push_list(alloc, props, x, &test.kind)?;
    Ok(())
}

// 1 where something is asked for, else 0.
fn flag(asked: bool) -> i32
    ensures { result ≡ if asked then pos 1 else pos 0 }
{
    if asked { 1 } else { 0 }
}

// One entry, which gives a value to atom x.
fn one_pair(alloc: Global, x: u32, value: i32) -> Result<Pairs, Memory>
    requires { x ≤ 512 }
    ensures { IfOk result (λ pairs. pairs ≡ (record { atom = pos x; value = value }) ∷ []) }
{
    let mut pairs = Pairs::new(alloc);
    pairs.push(Pair {
        atom: x as i32,
        value,
    })?;
    Ok(pairs)
}

// Appends the line of one thing that is asked of atom x, where its value isn't 0.
fn push_entry(
    alloc: Global,
    props: &mut Properties,
    x: u32,
    thing: Thing,
    value: i32,
) -> Result<(), Memory>
    requires { x ≤ 512 }
    ensures { OnOk result (props.new ≡ props.old ++ entry (property_of thing) x value) }
{
    if value == 0 {
        return Ok(());
    }
    let pairs = one_pair(alloc, x, value)?;
    props.push(property_of(thing, pairs))
}

// The property that gives values of this thing to atoms.
fn property_of(thing: Thing, pairs: Pairs) -> Property
    ensures { result ≡ property_of thing pairs }
{
    match thing {
        Thing::Charge => Property::Charge(pairs),
        Thing::Radical => Property::Radical(pairs),
        Thing::RingBonds => Property::RingBonds(pairs),
        Thing::Substitution => Property::Substitution(pairs),
        Thing::Unsaturation => Property::Unsaturation(pairs),
    }
}

// Appends the list of an atom, where its kind is one.
fn push_list(alloc: Global, props: &mut Properties, x: u32, kind: &Kind) -> Result<(), Memory>
    requires few { x ≤ 512 }
    requires kind { IsKindInRange kind.now }
    ensures { OnOk result (props.new ≡ props.old ++ list_entry x kind.now) }
{
    match kind {
        Kind::OneOf(elements) => push_symbols(alloc, props, x, false, elements.as_slice()),
        Kind::NoneOf(elements) => push_symbols(alloc, props, x, true, elements.as_slice()),
        _ => Ok(()),
    }
}

fn push_symbols(
    alloc: Global,
    props: &mut Properties,
    x: u32,
    not: bool,
    elements: &[u8],
) -> Result<(), Memory>
    requires few { x ≤ 512 }
    requires elements { All IsElement elements.now }
    ensures { OnOk result (props.new ≡ props.old ++ symbol_list x not elements.now ∷ []) }
{
    let symbols = symbols_of(alloc, elements)?;
    props.push(Property::List(AtomList {
        atom: x as i32,
        not,
        symbols,
    }))
}

// The symbols of some elements, in order.
fn symbols_of(alloc: Global, elements: &[u8]) -> Result<Symbols, Memory>
    requires { All IsElement elements.now }
    ensures { IfOk result (λ symbols. symbols ≡ map element_symbol elements.now) }
{
    let mut symbols = Symbols::new(alloc);
    for z in elements {
        symbols.push(symbol(alloc, *z)?)?;
    }
    Ok(symbols)
}

// The symbol of an element.
#[tactic(auto, using(crate::proofs::SymbolLemmas::symbol_is))]
fn symbol(alloc: Global, z: u8) -> Result<Bytes, Memory>
    requires { IsElement z }
    ensures { IfOk result (λ symbol. symbol ≡ element_symbol z) }
{
    Ok(Bytes::of(Vec::from_slice(alloc, symbol_of(z))?))
}
