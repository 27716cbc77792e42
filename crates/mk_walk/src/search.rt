// A search in one molecule, made once for a graph and a front.
ghost use Rattle.std.specs.Prelude.{◌≡◌, IfOk, IsTrue};
ghost use Rattle.mk_model.specs.Hits.{IsHit};
ghost use Rattle.mk_text.specs.Rising.{IsLeast, IsLeastFrom};
ghost use Rattle.mk_walk.specs.Held.{HoldsGraph};

use crate::hydrogens::{PlainHydrogen, plain_hydrogens};
use crate::outlook::Outlook;
use crate::table::table_of;
use crate::walk::Walk;
use mk_model::{Graph, Memory, Mol, Turn};
use std::alloc::Global;

/// What a search still has to do: a walk, or to give the one hit of a graph without atoms, or
/// nothing.
#[derive(Clone, Copy, Debug)]
pub enum Stage {
    Walking,
    Once,
    Ended,
}

/// A search: on which atoms those of the graph may lie, its plain hydrogens, where its walk stands,
/// and the look ahead.
#[derive(Debug, Drop)]
pub struct Search {
    pub fits: Vec<bool>,
    pub hydrogens: Vec<PlainHydrogen>,
    pub outlook: Outlook,
    pub walk: Walk,
    pub stage: Stage,
}

impl Search {
    ghost use Rattle.std.specs.Prelude.{◌<◌, ◌∷◌, ◌++◌, [], None, List, ℕ, false};
    ghost use Rattle.mk_walk.specs.Search.{IsLeft, IsOwed, IsSearch};
    ghost use Rattle.mk_walk.specs.SearchTurns.{IsNextFrom, Turns};
    ghost use Rattle.mk_walk.specs.Walk.{lists_left};

    /// A search for the hits that aren't below the front.
    pub fn of(alloc: Global, graph: &Graph, mol: &Mol, front: &[u32]) -> Result<Search, Memory>
        ensures kept { IfOk result (IsSearch graph.now mol.now) }
        ensures left { IfOk result (IsLeft graph.now mol.now front.now) }
        ensures owed { IfOk result (IsOwed front.now 1) }
    {
        Search::within(alloc, graph, mol, front, u64::MAX)
    }

    /// A search for the hits that aren't below the front. Its first look ahead takes at most so many
    /// steps.
    pub fn within(
        alloc: Global,
        graph: &Graph,
        mol: &Mol,
        front: &[u32],
        steps: u64,
    ) -> Result<Search, Memory>
        ensures kept { IfOk result (IsSearch graph.now mol.now) }
        ensures left { IfOk result (IsLeft graph.now mol.now front.now) }
        ensures owed { IfOk result (IsOwed front.now 1) }
    {
        if graph.atom_count() == 0 {
            if front.is_empty() {
                return Ok(Search::at_rest(alloc, Stage::Once));
            }
            return Ok(Search::at_rest(alloc, Stage::Ended));
        }
        let mut choices = Vec::with_capacity(alloc, graph.atom_count() as usize)?;
        let Some(fits) = table_of(alloc, graph, mol, &mut choices)? else {
            return Ok(Search::at_rest(alloc, Stage::Ended));
        };
        let mut outlook = Outlook::new(alloc, graph, mol, choices)?;
        outlook.limit(steps);
        if front.is_empty() && outlook.is_dead(graph, mol, &fits, &[], &[]) {
            return Ok(Search::at_rest(alloc, Stage::Ended));
        }
        let hydrogens = plain_hydrogens(alloc, graph)?;
        let mut walk = Walk::new(alloc, graph, mol)?;
        walk.seek(graph, mol, &fits, &hydrogens, front);
        Ok(Search {
            fits,
            hydrogens,
            outlook,
            walk,
            stage: Stage::Walking,
        })
    }

    // A search that doesn't walk.
    fn at_rest(alloc: Global, stage: Stage) -> Search
        ensures stage { result.stage ≡ stage }
        ensures images { result.walk.images.items ≡ [] }
    {
        Search {
            fits: Vec::new(alloc),
            hydrogens: Vec::new(alloc),
            outlook: Outlook::at_rest(alloc),
            walk: Walk::at_rest(alloc),
            stage,
        }
    }

    /// Tells whether what the look ahead found is a hit. The walk stays where it is.
    pub fn has_found(&mut self, alloc: Global, graph: &Graph, mol: &Mol) -> Result<bool, Memory>
        requires { IsSearch graph.now mol.now self.old }
        ensures hit { IfOk result (λ found. IsTrue found → HoldsGraph graph.now mol.now) }
        ensures kept { IsSearch graph.now mol.now self.new }
        ensures left { (place : List ℕ) → IsLeft graph.now mol.now place self.old → IsLeft graph.now mol.now place self.new }
        ensures owed { (place : List ℕ) (debt : ℕ) → IsOwed place debt self.old → IsOwed place debt self.new }
    {
        match self.stage {
            Stage::Walking => {
                let mut walk = Walk::new(alloc, graph, mol)?;
                let found = self.outlook.found();
                walk.seek(graph, mol, &self.fits, &self.hydrogens, found);
                match walk.turn(graph, mol, &self.fits, &self.hydrogens, &mut self.outlook) {
                    Turn::Item => Ok(true),
                    Turn::Moved => Ok(false),
                    Turn::End => Ok(false),
                }
            }
            Stage::Once => Ok(false),
            Stage::Ended => Ok(false),
        }
    }

    /// Goes on to the least hit that is left, where there is one: it lies in the walk's images.
    pub fn go_on(&mut self, graph: &Graph, mol: &Mol) -> bool
        requires { IsSearch graph.now mol.now self.old }
        ensures kept { IsSearch graph.now mol.now self.new }
        ensures least { IsTrue result → (place : List ℕ) → IsLeft graph.now mol.now place self.old → IsLeast place (IsHit graph.now mol.now) self.new.walk.images.items }
        ensures left { IsTrue result → IsLeft graph.now mol.now (self.new.walk.images.items ++ 0 ∷ []) self.new }
        ensures owed { IsTrue result → IsOwed (self.new.walk.images.items ++ 0 ∷ []) 0 self.new }
        ensures none { result ≡ false → (place : List ℕ) → IsLeft graph.now mol.now place self.old → IsLeastFrom place (IsHit graph.now mol.now) None }
        ensures ended { result ≡ false → (place : List ℕ) → IsLeft graph.now mol.now place self.old → IsLeft graph.now mol.now place self.new }
        ensures unowed { result ≡ false → (place : List ℕ) (debt : ℕ) → IsOwed place debt self.new }
    {
        'search: loop {
            self.outlook.fill();
            match self.step(graph, mol) {
                Turn::Item => return true,
                Turn::Moved => {}
                Turn::End => return false,
            }
        }
    }

    /// Goes on to the next node. What is said holds for every place from which the hits are left, and
    /// for what is owed there.
    pub fn turn(&mut self, graph: &Graph, mol: &Mol) -> Turn
        requires { IsSearch graph.now mol.now self.old }
        ensures kept { IsSearch graph.now mol.now self.new }
        ensures turns { (place : List ℕ) (debt : ℕ) → IsLeft graph.now mol.now place self.old → IsOwed place debt self.old
            → Turns graph.now mol.now place debt self.new result }
    {
        self.outlook.earn();
        self.step(graph, mol)
    }

    // The turn of which `go_on` takes as many as it needs, and `turn` one.
    fn step(&mut self, graph: &Graph, mol: &Mol) -> Turn
        requires { IsSearch graph.now mol.now self.old }
        ensures kept { IsSearch graph.now mol.now self.new }
        ensures turns { (place : List ℕ) (debt : ℕ) → IsLeft graph.now mol.now place self.old → IsOwed place debt self.old
            → Turns graph.now mol.now place debt self.new result }
        ensures next { (place : List ℕ) → IsLeft graph.now mol.now place self.old → IsNextFrom graph.now mol.now place self.new result }
        ensures left { result ≡ Turn.Item → IsLeft graph.now mol.now (self.new.walk.images.items ++ 0 ∷ []) self.new }
        ensures owed { result ≡ Turn.Item → IsOwed (self.new.walk.images.items ++ 0 ∷ []) 0 self.new }
        ensures fewer { result ≡ Turn.Moved → lists_left graph.now mol.now self.new.walk.images.items self.new.walk.depth self.new.walk.above
            < lists_left graph.now mol.now self.old.walk.images.items self.old.walk.depth self.old.walk.above }
        ensures end { result ≡ Turn.End → self.new.stage ≡ Stage.Ended }
    {
        match self.stage {
            Stage::Walking => match self
                .walk
                .turn(graph, mol, &self.fits, &self.hydrogens, &mut self.outlook)
            {
                Turn::Item => Turn::Item,
                Turn::Moved => Turn::Moved,
                Turn::End => {
                    self.stage = Stage::Ended;
                    Turn::End
                }
            },
            Stage::Once => {
                self.stage = Stage::Ended;
                Turn::Item
            }
            Stage::Ended => Turn::End,
        }
    }
}
