// On which atoms of the molecule each atom of the graph may lie, asked once for each pair.
ghost use Rattle.std.specs.Prelude.{◌≡◌, ◌<◌, ◌≤◌, ◌+◌, ◌-◌, ◌*◌, ◌↔◌, ℕ, false, IfNone, IfOk, IfSome, IsTrue, OnOk, Some, length, slice_get, slice_index_or, take};
ghost use Rattle.mk_counts.specs.Counts.{HasNoHit};
ghost use Rattle.mk_model.specs.Edges.{numbers_at};
ghost use Rattle.mk_model.specs.Graphs.{IsGraph, graph_edges};
ghost use Rattle.mk_model.specs.Molecules.{IsMolecule};
ghost use Rattle.mk_walk.specs.Table.{AreAlike, AreRows, AreTestsAlike, AsksNothingAround, IsLonely, IsTable, MayLie, cell};

use mk_model::{AtomTest, Graph, GraphAtom, Kind, Memory, Mol};
use mk_tests::atom_fits;
use std::alloc::Global;

/// The table, a row for each atom of the graph. None where one of these may lie on no atom of the
/// molecule: then there is no hit, and the rows after it aren't made. Puts on how many each may lie
/// into `choices`.
pub fn table_of(
    alloc: Global,
    graph: &Graph,
    mol: &Mol,
    choices: &mut Vec<u32>,
) -> Result<Option<Vec<bool>>, Memory>
    ensures table { IfOk result (λ found. IfSome found (λ fits. IsTable graph.now mol.now fits.items)) }
    ensures none { IfOk result (λ found. IfNone found (HasNoHit graph.now mol.now)) }
{
    let cells = graph.atom_count() as usize * mol.atoms().len();
    let mut fits = Vec::with_capacity(alloc, cells)?;
    for x in 0..graph.atom_count() {
        let count = push_row(&mut fits, graph, mol, x + 1)?;
        if count == 0 {
            return Ok(None);
        }
        choices.push(count)?;
    }
    Ok(Some(fits))
}

// Puts the row of the next atom behind the others, and tells on how many atoms it may lie.
fn push_row(fits: &mut Vec<bool>, graph: &Graph, mol: &Mol, x: u32) -> Result<u32, Memory>
    requires least { 1 ≤ x }
    requires most { x ≤ length graph.now.atoms }
    requires rows { AreRows graph.now mol.now (x - 1) fits.old.items }
    ensures rows { OnOk result (AreRows graph.now mol.now x fits.new.items) }
    ensures lonely { IfOk result (λ count. count ≡ 0 → IsLonely graph.now mol.now x (length mol.now.atoms)) }
{
    let bonds = graph.bonds_at(x).len();
    let alike = alike_before(graph, x);
    let mut count = 0u32;
    for m in 0..mol.atom_count() {
        let says = says_at(fits.as_slice(), alike, graph, x, bonds, mol, m + 1);
        count = counted(count, says);
        fits.push(says)?;
    }
    Ok(count)
}

// One more, where there is one.
fn counted(count: u32, says: bool) -> u32
    ensures { result ≡ 0 → (count ≡ 0) × (says ≡ false) }
{
    if says {
        return count.saturating_add(1);
    }
    count
}

// An earlier atom of the graph that is alike, whose row says the same.
fn alike_before(graph: &Graph, x: u32) -> Option<u32>
    requires least { 1 ≤ x }
    requires most { x ≤ length graph.now.atoms }
    ensures before { IfSome result (λ y. (1 ≤ y) × (y < x)) }
    ensures alike { IfSome result (λ y. AreAlike graph.now y x) }
{
    for y in 1..x {
        if are_alike(graph, y, x) {
            return Some(y);
        }
    }
    None
}

// Tells that two atoms ask for the same element, charge, radical and unsaturated bond and for no more,
// and have as many bonds.
fn are_alike(graph: &Graph, y: u32, x: u32) -> bool
    requires first_least { 1 ≤ y }
    requires first_most { y ≤ length graph.now.atoms }
    requires second_least { 1 ≤ x }
    requires second_most { x ≤ length graph.now.atoms }
    ensures { IsTrue result → AreAlike graph.now y x }
{
    let first = atom_numbered(graph.atoms(), y);
    let second = atom_numbered(graph.atoms(), x);
    is_asked_alone(&first.test, &second.test) && graph.bonds_at(y).len() == graph.bonds_at(x).len()
}

fn is_asked_alone(first: &AtomTest, second: &AtomTest) -> bool
    ensures { IsTrue result → AreTestsAlike first.now second.now }
{
    if !is_same_element(&first.kind, &second.kind) {
        return false;
    }
    if first.charge != second.charge || first.radical != second.radical {
        return false;
    }
    if first.unsaturated != second.unsaturated {
        return false;
    }
    asks_nothing_around(first) && asks_nothing_around(second)
}

// The two ask for one element, the same one.
fn is_same_element(first: &Kind, second: &Kind) -> bool
    ensures { IsTrue result → first.now ≡ second.now }
{
    match (first, second) {
        (Kind::Element(z), Kind::Element(other)) => *z == *other,
        _ => false,
    }
}

// No column asks for a number of neighbours.
fn asks_nothing_around(test: &AtomTest) -> bool
    ensures { IsTrue result → AsksNothingAround test.now }
{
    test.hydrogens == 0 && test.ring_bonds == 0 && test.substitution == 0
}

// The atom of this number.
fn atom_numbered(atoms: &[GraphAtom], number: u32) -> &GraphAtom
    requires least { 1 ≤ number }
    requires most { number ≤ length atoms.now }
    ensures { slice_get atoms.now (number - 1) ≡ Some result.now }
{
    &atoms[number as usize - 1]
}

// Tells whether atom x may lie on atom m: by the row of an atom that is alike, where there is one.
fn says_at(
    fits: &[bool],
    alike: Option<u32>,
    graph: &Graph,
    x: u32,
    bonds: usize,
    mol: &Mol,
    m: u32,
) -> bool
    requires drawn_least { 1 ≤ x }
    requires drawn_most { x ≤ length graph.now.atoms }
    requires bonds { bonds ≡ length (numbers_at (graph_edges graph.now.bonds) x) }
    requires atom_least { 1 ≤ m }
    requires atom_most { m ≤ length mol.now.atoms }
    requires before { IfSome alike (λ y. (1 ≤ y) × (y < x)) }
    requires alike { IfSome alike (λ y. AreAlike graph.now y x) }
    requires size { (x - 1) * length mol.now.atoms ≤ length fits.now }
    requires rows { (y n : ℕ) → 1 ≤ y → y < x → 1 ≤ n → n ≤ length mol.now.atoms → IsTrue (slice_index_or fits.now (cell mol.now y n) false) ↔ MayLie graph.now mol.now y n }
    ensures { IsTrue result ↔ MayLie graph.now mol.now x m }
{
    let Some(y) = alike else {
        return may_lie(graph, x, bonds, mol, m);
    };
    let width = mol.atoms().len();
    let place = (y as usize - 1) * width + (m as usize - 1);
    fits[place]
}

// Tells whether atom x, which has so many bonds, may lie on atom m.
fn may_lie(graph: &Graph, x: u32, bonds: usize, mol: &Mol, m: u32) -> bool
    requires drawn_least { 1 ≤ x }
    requires drawn_most { x ≤ length graph.now.atoms }
    requires bonds { bonds ≡ length (numbers_at (graph_edges graph.now.bonds) x) }
    requires atom_least { 1 ≤ m }
    requires atom_most { m ≤ length mol.now.atoms }
    ensures { IsTrue result ↔ MayLie graph.now mol.now x m }
{
    if mol.bonds_at(m).len() < bonds {
        return false;
    }
    atom_fits(graph, x, mol, m)
}

/// Tells whether atom x of the graph may lie on atom m of the molecule.
pub fn fits_at(fits: &[bool], graph: &Graph, x: u32, mol: &Mol, m: u32) -> bool
    requires table { IsTable graph.now mol.now fits.now }
    requires drawn_least { 1 ≤ x }
    requires drawn_most { x ≤ length graph.now.atoms }
    requires atom_least { 1 ≤ m }
    requires atom_most { m ≤ length mol.now.atoms }
    ensures fits { IsTrue result ↔ MayLie graph.now mol.now x m }
    ensures drawing { IsGraph graph.now }
    ensures molecule { IsMolecule mol.now }
{
    // The two lists are asked for what they say alone.
    let width = mol.atoms().len();
    let _few = graph.atom_count();
    let place = (x as usize - 1) * width + (m as usize - 1);
    fits[place]
}
