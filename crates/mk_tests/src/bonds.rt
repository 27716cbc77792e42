// Whether a bond of a molecule meets the test of a bond of a graph.
ghost use Rattle.std.specs.Prelude.{◌≡◌, ◌≤◌, ◌-◌, ◌↔◌, IsTrue, Some, length, slice_get};
ghost use Rattle.mk_model.specs.declared.graph.GraphBond.{GraphBond};
ghost use Rattle.mk_model.specs.Fitting.{LiesOn};
ghost use Rattle.mk_model.specs.Tests.{asked_kind, meets, takes_kind, takes_topology};

use mk_model::{Graph, GraphBond, Mol, MolBond};

/// Tells whether a bond of the molecule joins the atoms a and b and meets the test of bond q of the
/// graph.
pub fn bond_fits(graph: &Graph, q: u32, mol: &Mol, a: u32, b: u32) -> bool
    requires bond_least { 1 ≤ q }
    requires bond_most { q ≤ length graph.now.bonds }
    requires first_least { 1 ≤ a }
    requires first_most { a ≤ length mol.now.atoms }
    requires second_least { 1 ≤ b }
    requires second_most { b ≤ length mol.now.atoms }
    ensures { (asked : GraphBond) → slice_get graph.now.bonds (q - 1) ≡ Some asked → (IsTrue result ↔ LiesOn mol.now asked a b) }
{
    let asked = graph.bond(q);
    match mol.bond_between(a, b) {
        Some(bond) => bond_meets(asked, bond),
        None => false,
    }
}

// The bond has a type and a topology that are asked for.
fn bond_meets(asked: GraphBond, bond: MolBond) -> bool
    ensures { result ≡ meets asked bond }
{
    is_kind_taken(kind_asked(asked), bond) && is_topology_taken(asked.topology, bond)
}

// The type that a bond of a graph asks for: in the graph's aromatic set 1 and 2 ask for an aromatic
// bond.
fn kind_asked(asked: GraphBond) -> u8
    ensures { result ≡ asked_kind asked }
{
    if asked.aromatic && (asked.kind == 1 || asked.kind == 2) {
        return 4;
    }
    asked.kind
}

// 1 single, 2 double, 3 triple, 4 aromatic, 5 single or double, 6 single or aromatic, 7 double or
// aromatic, 8 any.
fn is_kind_taken(kind: u8, bond: MolBond) -> bool
    ensures { result ≡ takes_kind kind bond }
{
    match kind {
        1 => bond.kind == 1 && !bond.aromatic,
        2 => bond.kind == 2 && !bond.aromatic,
        3 => bond.kind == 3,
        4 => bond.aromatic,
        5 => (bond.kind == 1 || bond.kind == 2) && !bond.aromatic,
        6 => bond.kind == 1 || bond.aromatic,
        7 => bond.kind == 2 || bond.aromatic,
        _ => true,
    }
}

// 0 either, 1 a ring bond, 2 another.
fn is_topology_taken(topology: u8, bond: MolBond) -> bool
    ensures { result ≡ takes_topology topology bond }
{
    match topology {
        1 => bond.ring,
        2 => !bond.ring,
        _ => true,
    }
}
