// The plain hydrogens that are drawn in a graph, listed once before a search.
ghost use Rattle.std.specs.Prelude.{◌≡◌, ◌≤◌, ◌↔◌, ℕ, All, IfNone, IfOk, IfSome, IsTrue, length};
ghost use Rattle.mk_model.specs.Fitting.{is_drawn_hydrogen};
ghost use Rattle.mk_model.specs.Hits.{IsPlainDrawn};
ghost use Rattle.mk_walk.specs.Hydrogens.{ArePlain, IsDue, IsListedOn, IsTaker, LeadsTo};
ghost use Rattle.mk_walk.specs.Plain.{is_plain_bond, is_plain_test};

use mk_model::{AtomTest, Graph, GraphBond, Memory};
use mk_tests::{accepts_element, atom_numbered, is_drawn_as_hydrogen};
use std::alloc::Global;

/// A plain hydrogen of a graph; the atom that it is on; the plain hydrogen before it there, or 0; and
/// the last atom of the graph that may take another hydrogen there, or itself where none behind it may.
#[derive(Clone, Copy, Debug)]
pub struct PlainHydrogen {
    pub atom: u32,
    pub host: u32,
    pub before: u32,
    pub due: u32,
}

/// Lists the plain hydrogens of a graph.
pub fn plain_hydrogens(alloc: Global, graph: &Graph) -> Result<Vec<PlainHydrogen>, Memory>
    ensures { IfOk result (λ list. ArePlain graph.now list.items) }
{
    let mut list = Vec::new(alloc);
    for x in 0..graph.atom_count() {
        let atom = x + 1;
        let Some(host) = host_of(graph, atom) else {
            continue;
        };
        let before = last_on(&list, host);
        let due = due_at(graph, host, atom);
        list.push(PlainHydrogen {
            atom,
            host,
            before,
            due,
        })?;
    }
    Ok(list)
}

// The greatest of those listed that are on this host, or 0 where none is.
fn last_on(list: &[PlainHydrogen], host: u32) -> u32
    ensures listed { 1 ≤ result → IsListedOn list.now host result }
    ensures last { All (λ one. one.host ≡ host → one.atom ≤ result) list.now }
{
    let mut last = 0;
    for one in list {
        if one.host != host || one.atom <= last {
            continue;
        }
        last = one.atom;
    }
    last
}

// The last atom of the graph that may take a hydrogen of the host's image, or this one where none
// behind it may.
fn due_at(graph: &Graph, host: u32, atom: u32) -> u32
    requires { atom ≤ length graph.now.atoms }
    ensures { IsDue graph.now host atom result }
{
    let mut due = atom;
    for x in atom..graph.atom_count() {
        if !is_taker(graph, host, x + 1) {
            continue;
        }
        due = x + 1;
    }
    due
}

// Tells whether an atom, which is no plain hydrogen, may lie on a hydrogen of the host's image.
fn is_taker(graph: &Graph, host: u32, e: u32) -> bool
    requires least { 1 ≤ e }
    requires most { e ≤ length graph.now.atoms }
    ensures { IsTrue result ↔ IsTaker graph.now host e }
{
    if !accepts_element(&atom_numbered(graph.atoms(), e).test.kind, 1) {
        return false;
    }
    if let Some(_) = host_of(graph, e) {
        return false;
    }
    leads_to(graph, host, e)
}

// Tells whether each bond of atom e leads to the host.
fn leads_to(graph: &Graph, host: u32, e: u32) -> bool
    requires least { 1 ≤ e }
    requires most { e ≤ length graph.now.atoms }
    ensures { IsTrue result ↔ LeadsTo graph.now host e }
{
    for number in graph.bonds_at(e) {
        if !graph.bond(*number).edge().has_ends(e, host) {
            return false;
        }
    }
    true
}

// The atom on which this one is a plain hydrogen, where it is one.
fn host_of(graph: &Graph, h: u32) -> Option<u32>
    requires least { 1 ≤ h }
    requires most { h ≤ length graph.now.atoms }
    ensures some { IfSome result (λ x. IsPlainDrawn graph.now x h) }
    ensures none { IfNone result ((x : ℕ) → IsPlainDrawn graph.now x h → ⊥) }
{
    if !is_plain_test(&atom_numbered(graph.atoms(), h).test) {
        return None;
    }
    let numbers = graph.bonds_at(h);
    if numbers.len() != 1 {
        return None;
    }
    let bond = graph.bond(numbers[0]);
    if !is_plain_bond(bond) {
        return None;
    }
    let host = bond.edge().other_end(h);
    if is_drawn_hydrogen(graph, host) {
        return None;
    }
    Some(host)
}

// Tells whether hydrogen is asked for, and nothing else.
fn is_plain_test(test: &AtomTest) -> bool
    ensures { result ≡ is_plain_test test.now }
{
    is_drawn_as_hydrogen(&test.kind)
        && test.charge == 0
        && test.radical == 0
        && test.hydrogens == 0
        && test.ring_bonds == 0
        && test.substitution == 0
        && !test.unsaturated
}

// Tells whether the bond has type 1 and asks for no topology.
fn is_plain_bond(bond: GraphBond) -> bool
    ensures { result ≡ is_plain_bond bond }
{
    bond.kind == 1 && bond.topology == 0
}

// Tells whether the atom is drawn as a hydrogen.
fn is_drawn_hydrogen(graph: &Graph, x: u32) -> bool
    requires least { 1 ≤ x }
    requires most { x ≤ length graph.now.atoms }
    ensures { result ≡ is_drawn_hydrogen graph.now.atoms x }
{
    is_drawn_as_hydrogen(&atom_numbered(graph.atoms(), x).test.kind)
}
