// The graph of an open code, and whether a molecule may hold it.
ghost use Rattle.std.specs.Prelude.{◌≡◌, ◌≤◌, false, IfOk};
ghost use Rattle.mk_model.specs.Hits.{HasNoEmbedding};
ghost use Rattle.mk_model.specs.Screens.{IsNeedOf, IsScreenOf};
ghost use Rattle.mk_counts.specs.Asked.{AreThere};
ghost use Rattle.mk_expand.specs.OpenCodes.{IsOpenCode};
ghost use Rattle.mk_expand.specs.OpenGraphs.{IsOpenGraph};

use mk_counts::{Asked, Counts, cannot_hold, counts_asked};
use mk_expand::open_graph;
use mk_model::{Graph, Memory, Mol, Query, Screen};
use mk_screen::{is_covered, need_of};
use mk_walk::{may_hold, pay};
use std::alloc::Global;
use std::marker::Model;

// How many turns a search may take that looks for a graph.
const MOST_TURNS: u32 = 2_000;

// How many steps it takes to build and to mark an atom or a bond of a graph, as measured.
const STEPS_A_PART: u64 = 16;

/// A graph, what it asks for in numbers, and what it needs of a screen.
#[derive(Drop)]
pub struct Ask {
    graph: Graph,
    asked: Asked,
    need: Screen,
}

impl Model for Ask {
    ghost use Rattle.mk_model.specs.Graphs.{GraphView};
    ghost use Rattle.mk_fronts.specs.Asks.{IsAsk};

    ghost Value = { GraphView };

    ghost view = { λ a. a.graph };

    ghost invariant = { λ a. IsAsk a.graph a.asked a.need };
}

impl Ask {
    /// The graph of an open code. It pays for each atom and each bond.
    pub fn of(alloc: Global, query: &Query, code: &[u32], purse: &mut u64) -> Result<Ask, Memory>
        requires { IsOpenCode query.now 0 code.now }
        ensures made { IfOk result (IsOpenGraph query.now code.now) }
        ensures paid { purse.new ≤ purse.old }
    {
        let graph = open_graph(alloc, query, code)?;
        pay(purse, parts(&graph).saturating_mul(STEPS_A_PART));
        let asked = counts_asked(alloc, &graph)?;
        let need = need_of(&graph);
        Ok(Ask { graph, asked, need })
    }

    /// What it needs of a screen.
    pub fn need(&self) -> Screen
        ensures { IsNeedOf self.now result }
    {
        self.need
    }

    /// Tells whether the molecule may hold the graph. It asks for the screen and for counts first, and
    /// then looks for a hit, but not for long, and not with an empty purse.
    pub fn may_be_held(
        &self,
        alloc: Global,
        mol: &Mol,
        screen: &Screen,
        there: &Counts,
        purse: &mut u64,
    ) -> Result<bool, Memory>
        requires screen { IsScreenOf mol.now screen.now }
        requires there { AreThere mol.now there.now }
        ensures none { IfOk result (λ may. may ≡ false → HasNoEmbedding self.now mol.now) }
        ensures paid { purse.new ≤ purse.old }
    {
        // The two are asked for what they say alone.
        let _few = self.graph.atom_count();
        let _width = mol.atoms().len();
        if !is_covered(screen, &self.need) {
            return Ok(false);
        }
        if cannot_hold(&self.asked, there) {
            return Ok(false);
        }
        may_hold(alloc, &self.graph, mol, MOST_TURNS, purse)
    }

    /// About how many bytes it takes.
    pub fn bytes(&self) -> usize {
        let atoms = self.graph.atoms().len().saturating_mul(128);
        let bonds = self.graph.bonds().len().saturating_mul(64);
        atoms.saturating_add(bonds).saturating_add(1_024)
    }
}

// How many atoms and bonds a graph has.
fn parts(graph: &Graph) -> u64 {
    let atoms = graph.atoms().len() as u64;
    atoms.saturating_add(graph.bonds().len() as u64)
}
