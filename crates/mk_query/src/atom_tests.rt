// The tests of the atoms of a template.
ghost use Rattle.std.specs.Prelude.{◌≡◌, ◌≤◌, ◌<◌, pos, negsuc, IfOk, length};
ghost use Rattle.std.specs.Ordering.{int_eq};
ghost use Rattle.mk_demands.specs.Numbers.{IsWithin};
ghost use Rattle.mk_query.specs.Compiled.{AreTestsOf, no_test};
ghost use Rattle.mk_query.specs.Passed.{HasPassed};
ghost use Rattle.mk_query.specs.TestMarks.{AreNotes, IsTestAt};

use crate::atom_kinds::kind_of;
use crate::drawn::is_site;
use crate::list_places::{ListPlace, list_places};
use crate::values::{ValueKind, last_values};
use mk_demands::{Electrons, charges_and_radicals};
use mk_model::{AtomTest, Kind};
use mk_tables::{RawAtom, RawTable};
use mk_text::Memory;
use std::alloc::Global;

/// For each atom its charge and radical, the place of the list that is in force for it, and the
/// values that the last entries give it.
#[derive(Drop)]
pub struct AtomNotes {
    pub electrons: Vec<Electrons>,
    pub places: Vec<ListPlace>,
    pub ring_bonds: Vec<i32>,
    pub substitutions: Vec<i32>,
    pub unsaturations: Vec<i32>,
}

/// The tests of the atoms of a table, in order.
pub fn tests_of(alloc: Global, table: &RawTable) -> Result<Vec<AtomTest>, Memory>
    requires few { length table.now.atoms ≤ 999 }
    requires passed { HasPassed table.now }
    ensures { IfOk result (λ tests. AreTestsOf table.now tests.items) }
{
    let notes = notes_of(alloc, table)?;
    let atoms = table.atoms.as_slice().len();
    let mut tests = Vec::with_capacity(alloc, atoms)?;
    for i in 0..atoms {
        let test = test_at(alloc, table, &notes, i)?;
        tests.push(test)?;
    }
    Ok(tests)
}

fn notes_of(alloc: Global, table: &RawTable) -> Result<AtomNotes, Memory>
    requires few { length table.now.atoms ≤ 999 }
    requires passed { HasPassed table.now }
    ensures { IfOk result (AreNotes table.now) }
{
    let atoms = table.atoms.as_slice().len() as u32;
    let props = table.props.as_slice();
    let electrons = charges_and_radicals(alloc, table)?;
    let places = list_places(alloc, table)?;
    let ring_bonds = last_values(alloc, atoms, props, ValueKind::RingBonds)?;
    let substitutions = last_values(alloc, atoms, props, ValueKind::Substitution)?;
    let unsaturations = last_values(alloc, atoms, props, ValueKind::Unsaturation)?;
    Ok(AtomNotes {
        electrons,
        places,
        ring_bonds,
        substitutions,
        unsaturations,
    })
}

// The test of the atom at place i: none at a site.
fn test_at(alloc: Global, table: &RawTable, notes: &AtomNotes, i: usize) -> Result<AtomTest, Memory>
    requires within { i < length table.now.atoms }
    requires passed { HasPassed table.now }
    requires notes { AreNotes table.now notes.now }
    ensures { IfOk result (IsTestAt table.now i) }
{
    let line = &table.atoms.as_slice()[i];
    if is_site(line) {
        return Ok(no_test());
    }
    let kind = kind_of(alloc, line.symbol.as_slice(), table, notes.places[i])?;
    let electrons = notes.electrons[i];
    Ok(AtomTest {
        kind,
        charge: electrons.charge,
        radical: electrons.radical,
        hydrogens: hydrogens_of(line),
        ring_bonds: small(&notes.ring_bonds[i]),
        substitution: small(&notes.substitutions[i]),
        unsaturated: is_one(&notes.unsaturations[i]),
    })
}

fn no_test() -> AtomTest
    ensures { result ≡ no_test }
{
    AtomTest::of_kind(Kind::Anything)
}

fn hydrogens_of(line: &RawAtom) -> u8
    requires { IsWithin (pos 0) (pos 5) line.now.hydrogens }
    ensures { pos result ≡ line.now.hydrogens }
{
    let column = line.hydrogens;
    column as u8
}

fn small(value: &i32) -> i8
    requires { IsWithin (negsuc 14) (pos 15) value.now }
    ensures { result ≡ value.now }
{
    let z = *value;
    z as i8
}

fn is_one(value: &i32) -> bool
    ensures { result ≡ int_eq value.now (pos 1) }
{
    *value == 1
}
