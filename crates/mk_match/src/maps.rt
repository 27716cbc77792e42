// The hits of a graph: the least from a front on, and all from a place on, one after another.
ghost use Rattle.std.specs.Prelude.{◌≡◌, ◌≤◌, ◌<◌, ◌+◌, ◌++◌, ◌∷◌, [], IfOk, IsTrue, length, take};
ghost use Rattle.std.specs.Borrow.{sem};
ghost use Rattle.mk_model.specs.Hits.{IsHit};
ghost use Rattle.mk_text.specs.Rising.{IsLeastFrom};
ghost use Rattle.mk_walk.specs.Search.{IsDebt};

use mk_counts::has_too_few;
use mk_model::{Graph, Map, Memory, Mol, Place, Steps, Turn};
use mk_walk::Search;
use std::alloc::Global;
use std::marker::Model;
use std::sync::ledger::Ledger;

/// Gives the least hit that isn't below the front, and ticks one begin.
pub fn least_map<L: Ledger>(
    alloc: Global,
    graph: &Graph,
    mol: &Mol,
    front: &[u32],
    steps: &mut Steps<L>,
) -> Result<Option<Map>, Memory>
    ensures least { IfOk result (IsLeastFrom front.now (IsHit graph.now mol.now)) }
    ensures begin { steps.new ≡ steps.old + 1 }
{
    steps.tick();
    if has_too_few(graph, mol) {
        return Ok(None);
    }
    let mut search = Search::of(alloc, graph, mol, front)?;
    if search.go_on(graph, mol) {
        let walk = search.walk;
        return Ok(Some(Map::of(walk.images)));
    }
    Ok(None)
}

/// The hits of a graph in a molecule from a place on. It holds the graph, the place, and room for a
/// hit.
#[derive(Debug, Drop)]
pub struct Maps<'a> {
    search: Search,
    graph: Graph,
    place: Vec<u32>,
    mol: &'a Mol,
    len: usize,
    debt: u32,
}

impl<'a> Model for Maps<'a> {
    ghost use Rattle.std.specs.Prelude.{◌≡◌, ◌≤◌, length, take};
    ghost use Rattle.mk_match.specs.Maps.{IsReady, MapsLeft};

    ghost Value = { MapsLeft };

    ghost view = { λ m. record { graph = m.graph; mol = m.mol.now; place = take m.len m.place.items; debt = m.debt } };

    ghost invariant = { λ m. IsReady m.graph m.mol.now m.search m.place.items m.len m.debt };
}

impl<'a> Maps<'a> {
    ghost use Rattle.mk_match.specs.Maps.{IsMadeFrom, IsNextOf, IsTaken, IsTurn, MapsLeft};
    ghost use Rattle.mk_match.specs.Lending.{Ends};
    ghost use Rattle.std.specs.Prelude.{List, ℕ};

    /// The hits that aren't below the place. It takes the graph over, and ticks one begin. Elements
    /// aren't counted here: a caller that meets many molecules counts before (`cannot_hold`).
    pub fn from_place<L: Ledger>(
        alloc: Global,
        graph: Graph,
        mol: &'a Mol,
        place: &[u32],
        steps: &mut Steps<L>,
    ) -> Result<Maps<'a>, Memory>
        ensures left { IfOk result (IsMadeFrom graph mol.now place.now) }
        ensures begin { steps.new ≡ steps.old + 1 }
    {
        steps.tick();
        let search = Search::of(alloc, &graph, mol, place)?;
        let room = place.len().max(graph.atom_count() as usize + 1);
        let mut kept = vec![in alloc; 0u32; room]?;
        put(&mut kept, place);
        let debt = debt_at(&graph, place);
        Ok(Maps {
            search,
            graph,
            place: kept,
            mol,
            len: place.len(),
            debt,
        })
    }

    /// Gives the place: the last hit followed by 0, or the one that the hits were made from; after a
    /// turn that took none out, the last node.
    pub fn place(&self, alloc: Global) -> Result<Place, Memory>
        ensures { IfOk result (λ place. place ≡ self.now.place) }
    {
        let mut place = Vec::new(alloc);
        place.extend_from_slice(&self.place[..self.len])?;
        Ok(Place::of(place))
    }

    /// The next hit, where there is one.
    pub fn next(&mut self) -> Option<&[u32]>
        ensures* lends { sem 𝓛 (Ends self.entry (IsNextOf self.old result)) }
    {
        if !self.take() {
            return None;
        }
        Some(&self.place[..self.len - 1])
    }

    /// Goes on by one turn: the next hit is taken out, or the place is further on, or there is none.
    pub fn advance(&mut self) -> Turn
        ensures { IsTurn self.old self.new result }
    {
        match self.search.turn(&self.graph, self.mol) {
            Turn::Item => {
                let n = self.search.walk.images.len();
                put(&mut self.place, &self.search.walk.images);
                put_last(&mut self.place, n);
                self.len = n + 1;
                self.debt = 0;
                Turn::Item
            }
            Turn::Moved => {
                self.len = self.search.walk.put_node(&mut self.place);
                self.debt = 0;
                Turn::Moved
            }
            Turn::End => Turn::End,
        }
    }

    /// The numbers of the place.
    pub fn reached(&self) -> &[u32]
        ensures { result.now ≡ self.now.place }
    {
        &self.place[..self.len]
    }

    /// The hit that the last turn took out.
    pub fn item(&self) -> &[u32]
        requires behind { (hit : List ℕ) × (self.now.place ≡ hit ++ 0 ∷ []) }
        ensures { self.now.place ≡ result.now ++ 0 ∷ [] }
    {
        &self.place[..self.len - 1]
    }

    /// Gives the graph back.
    pub fn into_graph(self) -> Graph
        ensures { result ≡ self.entry.graph }
    {
        let Maps {
            search: _,
            graph,
            place: _,
            mol: _,
            len: _,
            debt: _,
        } = self;
        graph
    }

    // Goes to the place behind the next hit, where there is one.
    fn take(&mut self) -> bool
        ensures { IsTaken self.old self.new result }
    {
        if !self.search.go_on(&self.graph, self.mol) {
            return false;
        }
        let n = self.search.walk.images.len();
        put(&mut self.place, &self.search.walk.images);
        put_last(&mut self.place, n);
        self.len = n + 1;
        self.debt = 0;
        true
    }
}

// Puts numbers over the first ones.
fn put(place: &mut Vec<u32>, numbers: &[u32])
    requires { length numbers.now ≤ length place.old.items }
    ensures size { length place.new.items ≡ length place.old.items }
    ensures put { take (length numbers.now) place.new.items ≡ numbers.now }
{
    for i in 0..numbers.len() {
        place[i] = numbers[i];
    }
}

// Puts a 0 behind the first n.
fn put_last(place: &mut Vec<u32>, n: usize)
    requires { n < length place.old.items }
    ensures size { length place.new.items ≡ length place.old.items }
    ensures put { take (n + 1) place.new.items ≡ take n place.old.items ++ 0 ∷ [] }
{
    place[n] = 0;
}

// What is owed at a place: it may be a node itself, and so is the empty one where it is the one hit.
fn debt_at(graph: &Graph, place: &[u32]) -> u32
    ensures { IsDebt graph.now place.now result }
{
    if graph.atom_count() == 0 {
        return 1;
    }
    if place.is_empty() {
        return 0;
    }
    1
}
