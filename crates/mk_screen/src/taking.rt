// The screen of a molecule, and the need of a graph.
ghost use Rattle.mk_model.specs.Screens.{IsNeedOf, IsScreenOf};

use crate::counts::counts_of;
use crate::paths::bits_of;
use mk_model::{Graph, Mol, Screen};

/// The screen of a molecule. It takes no memory.
pub fn screen_of(mol: &Mol) -> Screen
    ensures { IsScreenOf mol.now result }
{
    Screen {
        counts: counts_of(mol),
        bits: bits_of(mol),
    }
}

/// What a graph needs of a screen. It takes no memory.
pub fn need_of(graph: &Graph) -> Screen
    ensures { IsNeedOf graph.now result }
{
    Screen {
        counts: counts_of(graph),
        bits: bits_of(graph),
    }
}
