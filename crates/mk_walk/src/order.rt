// The order in which a look ahead looks for atoms. Any order serves its promise, so nothing is
// promised of this one.
ghost use Rattle.std.specs.Prelude.{◌≡◌, ◌≤◌, ◌-◌, length, slice_index};

use mk_model::{Graph, Memory};
use std::alloc::Global;

// The rank of an atom that isn't in the order, and of one that waits at its edge.
const NONE: u32 = u32::MAX;

const EDGE: u32 = u32::MAX - 1;

/// The atoms behind the first ones: each beside one that has its place, where there is such an
/// atom, and the one that has most such neighbours before others.
#[derive(Debug, Drop)]
pub struct Order {
    pub atoms: Vec<u32>,
    pub ranks: Vec<u32>,
    placed: Vec<u32>,
    edge: Vec<u32>,
    choices: Vec<u32>,
    first: u32,
}

impl Order {
    /// An order by how many choices each atom of the graph has.
    pub fn new(alloc: Global, graph: &Graph, choices: Vec<u32>) -> Result<Order, Memory> {
        let atoms = graph.atom_count() as usize;
        Ok(Order {
            atoms: Vec::with_capacity(alloc, atoms)?,
            ranks: vec![in alloc; NONE; atoms]?,
            placed: vec![in alloc; 0u32; atoms]?,
            edge: Vec::with_capacity(alloc, atoms)?,
            choices,
            first: NONE,
        })
    }

    pub fn at_rest(alloc: Global) -> Order {
        Order {
            atoms: Vec::new(alloc),
            ranks: Vec::new(alloc),
            placed: Vec::new(alloc),
            edge: Vec::new(alloc),
            choices: Vec::new(alloc),
            first: NONE,
        }
    }

    /// Puts the atoms behind the first ones in order. The neighbours of the last of the first come
    /// before all others.
    pub fn arrange(&mut self, graph: &Graph, first: u32) {
        if self.first == first {
            return;
        }
        self.first = first;
        self.clear(graph);
        self.widen(graph, first);
        for rank in 0..graph.atom_count() {
            let Some(x) = self.next(graph) else {
                return;
            };
            put_at(&mut self.ranks, x, rank);
            let _ = self.atoms.push(x);
            self.widen(graph, x);
        }
    }

    // Forgets the last order, and counts for each atom the neighbours that have their places.
    fn clear(&mut self, graph: &Graph) {
        self.atoms.clear();
        self.edge.clear();
        for x in 0..graph.atom_count() {
            if x >= self.first {
                put_at(&mut self.ranks, x + 1, NONE);
                put_at(&mut self.placed, x + 1, placed_at(graph, x + 1, self.first));
            }
        }
    }

    // Lets the neighbours of atom x wait that aren't in the order.
    fn widen(&mut self, graph: &Graph, x: u32) {
        if x == 0 || x > graph.atom_count() {
            return;
        }
        for number in graph.bonds_at(x) {
            let y = graph.bond(*number).edge().other_end(x);
            if y <= self.first {
                continue;
            }
            let rank = number_at(&self.ranks, y);
            if rank == NONE {
                put_at(&mut self.ranks, y, EDGE);
                let _ = self.edge.push(y);
            }
            if rank >= EDGE && x > self.first {
                let placed = number_at(&self.placed, y).saturating_add(1);
                put_at(&mut self.placed, y, placed);
            }
        }
    }

    // The atom that comes next: of those that wait the one with most placed neighbours, or else one
    // to start anew with.
    fn next(&mut self, graph: &Graph) -> Option<u32> {
        if self.edge.is_empty() {
            return self.start(graph);
        }
        let mut best = 0;
        let mut most = 0;
        for (i, x) in self.edge.iter().enumerate() {
            let placed = number_at(&self.placed, *x);
            if placed > most {
                best = i;
                most = placed;
            }
        }
        if best < self.edge.len() {
            return Some(self.edge.remove(best));
        }
        None
    }

    // The atom to start anew with: one with most placed neighbours, and of these one that has
    // fewest choices.
    fn start(&self, graph: &Graph) -> Option<u32> {
        let mut best = None;
        let mut most = 0;
        let mut fewest = 0;
        for x in 0..graph.atom_count() {
            if x < self.first || number_at(&self.ranks, x + 1) != NONE {
                continue;
            }
            let placed = number_at(&self.placed, x + 1);
            let choices = number_at(&self.choices, x + 1);
            if best.is_none() || placed > most || (placed == most && choices < fewest) {
                best = Some(x + 1);
                most = placed;
                fewest = choices;
            }
        }
        best
    }
}

// How many neighbours of atom x are among the first.
fn placed_at(graph: &Graph, x: u32, first: u32) -> u32
    requires least { 1 ≤ x }
    requires most { x ≤ length graph.now.atoms }
{
    let mut count = 0u32;
    for number in graph.bonds_at(x) {
        if graph.bond(*number).edge().other_end(x) <= first {
            count = count.saturating_add(1);
        }
    }
    count
}

/// The number that is kept for an atom, or 0 where none is.
pub fn number_at(numbers: &[u32], x: u32) -> u32
    ensures { result ≡ slice_index numbers.now (x - 1) }
{
    match numbers.get((x as usize).saturating_sub(1)) {
        Some(number) => *number,
        None => 0,
    }
}

/// Keeps a number for an atom, where there is room.
pub fn put_at(numbers: &mut Vec<u32>, x: u32, number: u32) {
    let place = (x as usize).saturating_sub(1);
    if place < numbers.len() {
        numbers[place] = number;
    }
}
