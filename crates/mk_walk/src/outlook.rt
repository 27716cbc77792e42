// The look ahead: whether any hit begins with the first atoms. Only its no is promised.
ghost use Rattle.std.specs.Prelude.{◌≡◌, ◌<◌, ◌≤◌, ◌+◌, ◌-◌, ◌++◌, ℕ, List, IfSome, IsTrue, length, slice_index, All};
ghost use Rattle.mk_model.specs.Graphs.{IsGraph};
ghost use Rattle.mk_walk.specs.Table.{IsTable};
ghost use Rattle.mk_walk.specs.Outlook.{AreLater, EndsAt, IsBeside, IsNoHitBehind, IsPut, IsTakenBy, LiesNever, StandsIn};

use crate::candidates::next_atom;
use crate::order::{Order, number_at, put_at};
use crate::purse::pay;
use crate::table::fits_at;
use mk_model::{Graph, Memory, Mol};
use mk_tests::bond_fits;
use std::alloc::Global;

// How many steps a look ahead takes at most, and how many it takes even where it gave up before. An
// atom that is tried is a step, and one more for each bond of the graph's atom behind the third.
const MOST_STEPS: u32 = 65_536;

const LEAST_STEPS: u32 = 256;

// How many steps a turn earns for its look ahead. What it doesn't take is there for later ones, up to
// what one look ahead takes at most: so turns take so many on the average, and a few may take more.
const EARNED: u64 = 4_096;

/// What a look ahead needs: the order in which it looks for atoms, what it chose for them, the hit
/// that it found last, and how many steps it takes before it gives up. These are halved where it
/// gives up, and doubled where it doesn't: so where looking ahead is of no use, it costs little. They
/// are never more than `most`, and than what `purse` has: it is filled where nothing bounds the turns.
/// `taken` counts the steps of all look aheads.
#[derive(Debug, Drop)]
pub struct Outlook {
    order: Order,
    chosen: Vec<u32>,
    levels: Vec<u32>,
    witness: Vec<u32>,
    steps: u32,
    most: u32,
    purse: u64,
    taken: u64,
}

impl Outlook {
    /// A look ahead that has looked at nothing, by how many choices each atom of the graph has.
    pub fn new(
        alloc: Global,
        graph: &Graph,
        mol: &Mol,
        choices: Vec<u32>,
    ) -> Result<Outlook, Memory> {
        let atoms = graph.atom_count() as usize;
        Ok(Outlook {
            order: Order::new(alloc, graph, choices)?,
            chosen: vec![in alloc; 0u32; atoms]?,
            levels: vec![in alloc; 0u32; mol.atom_count() as usize]?,
            witness: vec![in alloc; 0u32; atoms]?,
            steps: MOST_STEPS,
            most: MOST_STEPS,
            purse: MOST_STEPS as u64,
            taken: 0,
        })
    }

    /// Takes at most so many steps for a look ahead from now on, but no more than any may take.
    pub fn limit(&mut self, most: u64) {
        self.most = most.min(MOST_STEPS as u64) as u32;
    }

    /// Lets the next look ahead take as many steps as any may.
    pub fn fill(&mut self) {
        self.purse = MOST_STEPS as u64;
    }

    /// Adds what one turn earns.
    pub fn earn(&mut self) {
        self.purse = self.purse.saturating_add(EARNED).min(MOST_STEPS as u64);
    }

    /// How many steps all look aheads took.
    pub fn taken(&self) -> u64 {
        self.taken
    }

    /// What was found last: a number for each atom of the graph.
    pub fn found(&self) -> &[u32] {
        &self.witness
    }

    /// What is needed where nothing is looked for.
    pub fn at_rest(alloc: Global) -> Outlook {
        Outlook {
            order: Order::at_rest(alloc),
            chosen: Vec::new(alloc),
            levels: Vec::new(alloc),
            witness: Vec::new(alloc),
            steps: 0,
            most: 0,
            purse: 0,
            taken: 0,
        }
    }

    /// Tells that no hit begins with these atoms; where it doesn't, there may be one or none.
    pub fn is_dead(
        &mut self,
        graph: &Graph,
        mol: &Mol,
        fits: &[bool],
        first: &[u32],
        fixed: &[u32],
    ) -> bool
        requires { IsTable graph.now mol.now fits.now }
        ensures { IsTrue result → IsNoHitBehind graph.now mol.now first.now }
    {
        if first.len() >= graph.atom_count() as usize || self.agrees(first) {
            return false;
        }
        self.order.arrange(graph, first.len() as u32);
        let steps = (self.steps.min(self.most) as u64).min(self.purse) as u32;
        let mut left = steps;
        let said = has_none(
            graph,
            mol,
            fits,
            first,
            fixed,
            &self.order.atoms,
            &self.order.ranks,
            &mut self.chosen,
            &mut self.levels,
            &mut left,
        );
        let took = steps.saturating_sub(left) as u64;
        pay(&mut self.purse, took);
        self.taken = self.taken.saturating_add(took);
        let Some(none) = said else {
            self.steps = (self.steps / 2).max(LEAST_STEPS);
            return false;
        };
        self.steps = self.steps.saturating_mul(2).min(MOST_STEPS);
        if !none {
            self.keep(first);
        }
        none
    }

    // Tells whether the witness has the last of the first atoms. It has the others, as long as it
    // is kept.
    fn agrees(&self, first: &[u32]) -> bool {
        if first.is_empty() || first.len() > self.witness.len() {
            return false;
        }
        self.witness[first.len() - 1] == first[first.len() - 1]
    }

    // Keeps the first atoms and what was found behind them as the witness.
    fn keep(&mut self, first: &[u32]) {
        if first.len() > self.witness.len() {
            return;
        }
        if let Some(a) = first.last() {
            self.witness[first.len() - 1] = *a;
        }
        for (x, a) in self.order.atoms.iter().zip(self.chosen.iter()) {
            put_at(&mut self.witness, *x, *a);
        }
    }
}

// Tells whether no hit begins with the first atoms, or nothing where it takes more steps than are left.
// It puts one atom of the order after another, and takes the last one back where the next can't be
// put.
fn has_none(
    graph: &Graph,
    mol: &Mol,
    fits: &[bool],
    first: &[u32],
    fixed: &[u32],
    order: &[u32],
    ranks: &[u32],
    chosen: &mut Vec<u32>,
    levels: &mut Vec<u32>,
    left: &mut u32,
) -> Option<bool>
    requires { IsTable graph.now mol.now fits.now }
    ensures { IfSome result (λ none. IsTrue none → IsNoHitBehind graph.now mol.now first.now) }
{
    if order.is_empty() || order.len() > chosen.len() || order.len() > graph.atom_count() as usize {
        return None;
    }
    if !are_later(graph, first.len(), order) {
        return None;
    }
    let mut d = 0;
    let mut above = 0u32;
    // The same for all candidates of one atom.
    let mut anchor = anchor_of(graph, mol, first, order, ranks, &chosen[..d], order[d]);
    'look: loop {
        if *left == 0 {
            return None;
        }
        *left -= 1;
        pay_bonds(graph, order[d], left);
        let Some(a) = next_atom(mol, anchor, above) else {
            if d == 0 {
                return Some(true);
            }
            d -= 1;
            above = chosen[d];
            anchor = anchor_of(graph, mol, first, order, ranks, &chosen[..d], order[d]);
            continue;
        };
        if is_barred(
            graph,
            mol,
            fits,
            first,
            fixed,
            order,
            ranks,
            &chosen[..d],
            levels,
            a,
        ) {
            above = a;
            continue;
        }
        chosen[d] = a;
        if d + 1 == order.len() {
            return Some(false);
        }
        put_at(levels, a, d as u32);
        d += 1;
        above = 0;
        anchor = anchor_of(graph, mol, first, order, ranks, &chosen[..d], order[d]);
    }
}

// Takes the steps off for the bonds of an atom behind the third.
fn pay_bonds(graph: &Graph, x: u32, left: &mut u32)
    requires least { 1 ≤ x }
    requires most { x ≤ length graph.now.atoms }
    ensures { left.new ≤ left.old }
{
    let bonds = graph.bonds_at(x).len().min(1_000) as u32;
    *left = left.saturating_sub(bonds.saturating_sub(3));
}

// Tells whether all are atoms of the graph behind so many first ones.
fn are_later(graph: &Graph, first: usize, order: &[u32]) -> bool
    ensures { IsTrue result → AreLater graph.now first order.now }
{
    for x in order {
        if *x as usize <= first || *x > graph.atom_count() {
            return false;
        }
    }
    true
}

// The atom on which a neighbour of atom x lies, where one has its place.
fn anchor_of(
    graph: &Graph,
    mol: &Mol,
    first: &[u32],
    order: &[u32],
    ranks: &[u32],
    chosen: &[u32],
    x: u32,
) -> Option<u32>
    requires room { length chosen.now ≤ length order.now }
    requires least { 1 ≤ x }
    requires most { x ≤ length graph.now.atoms }
    ensures within { IfSome result (λ a. (1 ≤ a) × (a ≤ length mol.now.atoms)) }
    ensures beside { IfSome result (IsBeside graph.now mol.now first.now order.now chosen.now x) }
{
    for number in graph.bonds_at(x) {
        let bond = graph.bond(*number);
        if let Some(a) = image_of(mol, first, order, ranks, chosen, bond.edge().other_end(x)) {
            return Some(a);
        }
    }
    None
}

// Tells that the next atom of the order can't lie on this one.
fn is_barred(
    graph: &Graph,
    mol: &Mol,
    fits: &[bool],
    first: &[u32],
    fixed: &[u32],
    order: &[u32],
    ranks: &[u32],
    chosen: &[u32],
    levels: &[u32],
    a: u32,
) -> bool
    requires table { IsTable graph.now mol.now fits.now }
    requires later { AreLater graph.now (length first.now) order.now }
    requires room { length chosen.now < length order.now }
    requires least { 1 ≤ a }
    requires most { a ≤ length mol.now.atoms }
    ensures { IsTrue result → LiesNever graph.now mol.now first.now order.now chosen.now (slice_index order.now (length chosen.now)) a }
{
    let x = order[chosen.len()];
    if !fits_at(fits, graph, x, mol, a) {
        return true;
    }
    if stands_in(first, fixed, a) {
        return true;
    }
    if is_taken(order, chosen, levels, x, a) {
        return true;
    }
    has_unmet_bond(graph, mol, first, order, ranks, chosen, x, a)
}

// Tells that the atom is one of the first.
fn stands_in(first: &[u32], fixed: &[u32], a: u32) -> bool
    ensures { IsTrue result → StandsIn first.now a }
{
    let level = number_at(fixed, a) as usize;
    if level >= first.len() {
        return false;
    }
    first[level] == a
}

// Tells that the atom is chosen for another atom than x.
fn is_taken(order: &[u32], chosen: &[u32], levels: &[u32], x: u32, a: u32) -> bool
    requires { length chosen.now ≤ length order.now }
    ensures { IsTrue result → IsTakenBy order.now chosen.now x a }
{
    let level = number_at(levels, a) as usize;
    if level >= chosen.len() || order[level] == x {
        return false;
    }
    chosen[level] == a
}

// Tells that a bond between atom x, on a, and a neighbour that has its place can't be met.
fn has_unmet_bond(
    graph: &Graph,
    mol: &Mol,
    first: &[u32],
    order: &[u32],
    ranks: &[u32],
    chosen: &[u32],
    x: u32,
    a: u32,
) -> bool
    requires room { length chosen.now ≤ length order.now }
    requires drawn_least { 1 ≤ x }
    requires drawn_most { x ≤ length graph.now.atoms }
    requires least { 1 ≤ a }
    requires most { a ≤ length mol.now.atoms }
    ensures { IsTrue result → LiesNever graph.now mol.now first.now order.now chosen.now x a }
{
    for number in graph.bonds_at(x) {
        if is_unmet(graph, mol, first, order, ranks, chosen, *number, x, a) {
            return true;
        }
    }
    false
}

// Tells that this bond of atom x leads to a neighbour that has its place, and can't be met.
fn is_unmet(
    graph: &Graph,
    mol: &Mol,
    first: &[u32],
    order: &[u32],
    ranks: &[u32],
    chosen: &[u32],
    number: u32,
    x: u32,
    a: u32,
) -> bool
    requires room { length chosen.now ≤ length order.now }
    requires number_least { 1 ≤ number }
    requires number_most { number ≤ length graph.now.bonds }
    requires ends { EndsAt graph.now number x }
    requires least { 1 ≤ a }
    requires most { a ≤ length mol.now.atoms }
    ensures { IsTrue result → LiesNever graph.now mol.now first.now order.now chosen.now x a }
{
    let bond = graph.bond(number);
    let Some(b) = image_of(mol, first, order, ranks, chosen, bond.edge().other_end(x)) else {
        return false;
    };
    if bond.first == x {
        return !bond_fits(graph, number, mol, a, b);
    }
    !bond_fits(graph, number, mol, b, a)
}

// The atom on which atom y of the graph lies, where it has its place.
fn image_of(
    mol: &Mol,
    first: &[u32],
    order: &[u32],
    ranks: &[u32],
    chosen: &[u32],
    y: u32,
) -> Option<u32>
    requires { length chosen.now ≤ length order.now }
    ensures within { IfSome result (λ a. (1 ≤ a) × (a ≤ length mol.now.atoms)) }
    ensures put { IfSome result (IsPut first.now order.now chosen.now y) }
{
    let a = number_put(first, order, ranks, chosen, y)?;
    if a == 0 || a > mol.atom_count() {
        return None;
    }
    Some(a)
}

fn number_put(first: &[u32], order: &[u32], ranks: &[u32], chosen: &[u32], y: u32) -> Option<u32>
    requires { length chosen.now ≤ length order.now }
    ensures { IfSome result (IsPut first.now order.now chosen.now y) }
{
    if y == 0 {
        return None;
    }
    let place = y as usize - 1;
    if place < first.len() {
        return Some(first[place]);
    }
    let rank = number_at(ranks, y) as usize;
    if rank >= chosen.len() || order[rank] != y {
        return None;
    }
    Some(chosen[rank])
}
