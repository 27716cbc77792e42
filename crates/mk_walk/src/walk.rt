// The walk through the lists of atoms in rising order, one step after another.
ghost use Rattle.std.specs.Prelude.{◌≡◌, ◌<◌, ◌≤◌, ◌+◌, ◌-◌, ◌++◌, ◌∷◌, ◌↔◌, [], ℕ, None, Contains, IfOk, IsTrue, List, false, true, length, slice_index, slice_set, take, if◌then◌else◌};
ghost use Rattle.mk_model.specs.Graphs.{IsGraph};
ghost use Rattle.mk_model.specs.Hits.{IsHit};
ghost use Rattle.mk_text.specs.Rising.{IsBelow, IsLeastFrom};
ghost use Rattle.mk_walk.specs.Begun.{MayStand};
ghost use Rattle.mk_walk.specs.Hydrogens.{ArePlain};
ghost use Rattle.mk_walk.specs.Table.{IsTable};
ghost use Rattle.mk_walk.specs.Turns.{GoesOn, IsVisit, node_of};
ghost use Rattle.mk_walk.specs.Walk.{IsWalk, SameFrom, lists_left, place_of};

use crate::candidates::{is_among, next_atom};
use crate::earlier_bonds::{anchor_of, are_bonds_met};
use crate::free_hydrogens::are_in_order;
use crate::hydrogens::PlainHydrogen;
use crate::outlook::Outlook;
use crate::table::fits_at;
use mk_model::{Graph, Memory, Mol, Turn};
use std::alloc::Global;

/// Where a walk stands: the images of the first atoms of the graph, and the number up to which
/// those of the next are passed.
#[derive(Debug, Drop)]
pub struct Walk {
    pub images: Vec<u32>,
    pub levels: Vec<u32>,
    pub depth: usize,
    pub above: u32,
}

/// What a step comes to: a hit, and then the walk stands behind it; a node that is no hit; a place
/// further on, with no node on the way; or nothing is left.
#[derive(Clone, Copy, Debug)]
pub enum Step {
    Item,
    Node,
    Back,
    End,
}

impl Walk {
    /// A walk through all lists.
    pub fn new(alloc: Global, graph: &Graph, mol: &Mol) -> Result<Walk, Memory>
        requires { 0 < length graph.now.atoms }
        ensures kept { IfOk result (λ walk. IsWalk graph.now mol.now walk.images.items walk.levels.items walk.depth) }
        ensures start { IfOk result (λ walk. (walk.depth ≡ 0) × (walk.above ≡ 0)) }
    {
        Ok(Walk {
            images: vec![in alloc; 0u32; graph.atom_count() as usize]?,
            levels: vec![in alloc; 0u32; mol.atoms().len()]?,
            depth: 0,
            above: 0,
        })
    }

    /// A walk that doesn't go on.
    pub fn at_rest(alloc: Global) -> Walk
        ensures { result.images.items ≡ [] }
    {
        Walk {
            images: Vec::new(alloc),
            levels: Vec::new(alloc),
            depth: 0,
            above: 0,
        }
    }

    /// Goes to the lists from a front on.
    pub fn seek(
        &mut self,
        graph: &Graph,
        mol: &Mol,
        fits: &[bool],
        hydrogens: &[PlainHydrogen],
        front: &[u32],
    )
        requires table { IsTable graph.now mol.now fits.now }
        requires plain { ArePlain graph.now hydrogens.now }
        requires kept { IsWalk graph.now mol.now self.old.images.items self.old.levels.items self.old.depth }
        requires start { self.old.depth ≡ 0 }
        requires first { self.old.above ≡ 0 }
        ensures kept { IsWalk graph.now mol.now self.new.images.items self.new.levels.items self.new.depth }
        ensures same { SameFrom (IsHit graph.now mol.now) front.now (place_of self.new.images.items self.new.depth self.new.above) }
        ensures up { IsBelow (place_of self.new.images.items self.new.depth self.new.above) front.now → ⊥ }
    {
        for i in 0..front.len() {
            let number = front[i];
            if i + 1 == front.len() {
                self.above = number.saturating_sub(1);
                return;
            }
            if i + 1 == self.images.len() {
                self.above = number;
                return;
            }
            if !self.stands(graph, mol, fits, hydrogens, number) {
                self.above = number;
                return;
            }
            self.put(number);
            self.depth += 1;
        }
    }

    /// Goes on to the next node: a hit or not.
    pub fn turn(
        &mut self,
        graph: &Graph,
        mol: &Mol,
        fits: &[bool],
        hydrogens: &[PlainHydrogen],
        outlook: &mut Outlook,
    ) -> Turn
        requires table { IsTable graph.now mol.now fits.now }
        requires plain { ArePlain graph.now hydrogens.now }
        requires kept { IsWalk graph.now mol.now self.old.images.items self.old.levels.items self.old.depth }
        ensures kept { IsWalk graph.now mol.now self.new.images.items self.new.levels.items self.new.depth }
        ensures moved { result ≡ Turn.Moved → SameFrom (IsHit graph.now mol.now) (place_of self.old.images.items self.old.depth self.old.above) (place_of self.new.images.items self.new.depth self.new.above) }
        ensures fewer { result ≡ Turn.Moved → lists_left graph.now mol.now self.new.images.items self.new.depth self.new.above < lists_left graph.now mol.now self.old.images.items self.old.depth self.old.above }
        ensures node { result ≡ Turn.Moved → IsVisit graph.now mol.now (place_of self.old.images.items self.old.depth self.old.above) (node_of self.new.images.items self.new.depth self.new.above) }
        ensures hit { result ≡ Turn.Item → IsHit graph.now mol.now self.new.images.items }
        ensures least { result ≡ Turn.Item → SameFrom (IsHit graph.now mol.now) (place_of self.old.images.items self.old.depth self.old.above) self.new.images.items }
        ensures behind { result ≡ Turn.Item → SameFrom (IsHit graph.now mol.now) (self.new.images.items ++ 0 ∷ []) (place_of self.new.images.items self.new.depth self.new.above) }
        ensures over { result ≡ Turn.Item → IsBelow (self.new.images.items ++ 0 ∷ []) (place_of self.new.images.items self.new.depth self.new.above) }
        ensures item { result ≡ Turn.Item → IsVisit graph.now mol.now (place_of self.old.images.items self.old.depth self.old.above) self.new.images.items }
        ensures end { result ≡ Turn.End → IsLeastFrom (place_of self.old.images.items self.old.depth self.old.above) (IsHit graph.now mol.now) None }
    {
        'turn: loop {
            match self.step(graph, mol, fits, hydrogens, outlook) {
                Step::Item => return Turn::Item,
                Step::Node => return Turn::Moved,
                Step::Back => {}
                Step::End => return Turn::End,
            }
        }
    }

    /// Puts the list that the walk came to last over the first numbers of another, and tells how long
    /// it is.
    pub fn put_node(&self, place: &mut Vec<u32>) -> usize
        requires short { self.now.depth < length self.now.images.items }
        requires room { length self.now.images.items ≤ length place.old.items }
        ensures size { length place.new.items ≡ length place.old.items }
        ensures within { result ≤ length self.now.images.items }
        ensures put { take result place.new.items ≡ node_of self.now.images.items self.now.depth self.now.above }
    {
        for i in 0..self.depth {
            place[i] = self.images[i];
        }
        if self.above == 0 {
            return self.depth;
        }
        place[self.depth] = self.above;
        self.depth + 1
    }

    /// Goes on by one step.
    fn step(
        &mut self,
        graph: &Graph,
        mol: &Mol,
        fits: &[bool],
        hydrogens: &[PlainHydrogen],
        outlook: &mut Outlook,
    ) -> Step
        requires table { IsTable graph.now mol.now fits.now }
        requires plain { ArePlain graph.now hydrogens.now }
        requires kept { IsWalk graph.now mol.now self.old.images.items self.old.levels.items self.old.depth }
        ensures kept { IsWalk graph.now mol.now self.new.images.items self.new.levels.items self.new.depth }
        ensures moved { GoesOn result → SameFrom (IsHit graph.now mol.now) (place_of self.old.images.items self.old.depth self.old.above) (place_of self.new.images.items self.new.depth self.new.above) }
        ensures fewer { GoesOn result → lists_left graph.now mol.now self.new.images.items self.new.depth self.new.above < lists_left graph.now mol.now self.old.images.items self.old.depth self.old.above }
        ensures up { result ≡ Step.Back → IsBelow (place_of self.old.images.items self.old.depth self.old.above) (place_of self.new.images.items self.new.depth self.new.above) }
        ensures node { result ≡ Step.Node → IsVisit graph.now mol.now (place_of self.old.images.items self.old.depth self.old.above) (node_of self.new.images.items self.new.depth self.new.above) }
        ensures hit { result ≡ Step.Item → IsHit graph.now mol.now self.new.images.items }
        ensures least { result ≡ Step.Item → SameFrom (IsHit graph.now mol.now) (place_of self.old.images.items self.old.depth self.old.above) self.new.images.items }
        ensures behind { result ≡ Step.Item → SameFrom (IsHit graph.now mol.now) (self.new.images.items ++ 0 ∷ []) (place_of self.new.images.items self.new.depth self.new.above) }
        ensures over { result ≡ Step.Item → IsBelow (self.new.images.items ++ 0 ∷ []) (place_of self.new.images.items self.new.depth self.new.above) }
        ensures item { result ≡ Step.Item → IsVisit graph.now mol.now (place_of self.old.images.items self.old.depth self.old.above) self.new.images.items }
        ensures end { result ≡ Step.End → IsLeastFrom (place_of self.old.images.items self.old.depth self.old.above) (IsHit graph.now mol.now) None }
    {
        let anchor = anchor_of(graph, &self.images[..self.depth]);
        let Some(atom) = next_atom(mol, anchor, self.above) else {
            if self.depth == 0 {
                return Step::End;
            }
            self.depth -= 1;
            self.above = self.images[self.depth];
            return Step::Back;
        };
        if self.holds(atom) {
            self.above = atom;
            return Step::Back;
        }
        if !self.may_stand(graph, mol, fits, hydrogens, atom) {
            self.above = atom;
            return Step::Node;
        }
        self.put(atom);
        if outlook.is_dead(
            graph,
            mol,
            fits,
            &self.images[..self.depth + 1],
            &self.levels,
        ) {
            self.above = atom;
            return Step::Node;
        }
        if self.depth + 1 == self.images.len() {
            self.above = atom;
            return Step::Item;
        }
        self.depth += 1;
        self.above = 0;
        Step::Node
    }

    // Tells whether the number is an atom that may stand behind the first ones.
    fn stands(
        &self,
        graph: &Graph,
        mol: &Mol,
        fits: &[bool],
        hydrogens: &[PlainHydrogen],
        number: u32,
    ) -> bool
        requires table { IsTable graph.now mol.now fits.now }
        requires plain { ArePlain graph.now hydrogens.now }
        requires kept { IsWalk graph.now mol.now self.now.images.items self.now.levels.items self.now.depth }
        ensures { IsTrue result ↔ ((1 ≤ number) × (number ≤ length mol.now.atoms) × MayStand graph.now mol.now (take self.now.depth self.now.images.items) number) }
    {
        if number == 0 || number > mol.atom_count() {
            return false;
        }
        self.may_stand(graph, mol, fits, hydrogens, number)
    }

    // Tells whether the atom may lie where the next of the graph does, is new, is bonded to the first
    // ones as the graph asks, and takes plain hydrogens in order.
    fn may_stand(
        &self,
        graph: &Graph,
        mol: &Mol,
        fits: &[bool],
        hydrogens: &[PlainHydrogen],
        a: u32,
    ) -> bool
        requires table { IsTable graph.now mol.now fits.now }
        requires plain { ArePlain graph.now hydrogens.now }
        requires kept { IsWalk graph.now mol.now self.now.images.items self.now.levels.items self.now.depth }
        requires least { 1 ≤ a }
        requires most { a ≤ length mol.now.atoms }
        ensures { IsTrue result ↔ MayStand graph.now mol.now (take self.now.depth self.now.images.items) a }
    {
        let _few = graph.atom_count();
        if !fits_at(fits, graph, self.depth as u32 + 1, mol, a) {
            return false;
        }
        if self.holds(a) {
            return false;
        }
        if !are_bonds_met(graph, mol, &self.images[..self.depth], a) {
            return false;
        }
        are_in_order(mol, hydrogens, &self.images[..self.depth], &self.levels, a)
    }

    // Tells whether the atom is among the first ones.
    fn holds(&self, a: u32) -> bool
        requires sized { a ≤ length self.now.levels.items }
        requires least { 1 ≤ a }
        requires short { self.now.depth ≤ length self.now.images.items }
        requires stand { (j : ℕ) → j < self.now.depth → slice_index self.now.levels.items (slice_index self.now.images.items j - 1) ≡ j }
        ensures { IsTrue result ↔ Contains (take self.now.depth self.now.images.items) a }
    {
        is_among(&self.images[..self.depth], &self.levels, a)
    }

    // Puts an atom behind the first ones.
    fn put(&mut self, atom: u32)
        requires short { self.old.depth < length self.old.images.items }
        requires few { length self.old.images.items ≤ 512 }
        requires least { 1 ≤ atom }
        requires most { atom ≤ length self.old.levels.items }
        ensures images { self.new.images.items ≡ slice_set self.old.images.items self.old.depth atom }
        ensures levels { self.new.levels.items ≡ slice_set self.old.levels.items (atom - 1) self.old.depth }
        ensures depth { self.new.depth ≡ self.old.depth }
        ensures above { self.new.above ≡ self.old.above }
    {
        let depth = self.depth;
        self.images[depth] = atom;
        self.levels[atom as usize - 1] = depth as u32;
    }
}
