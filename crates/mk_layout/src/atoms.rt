// Hydrogens, and the atoms with attachment points.
ghost use Rattle.std.specs.Prelude.{◌≡◌, ◌+◌, All, IfOk, map};
ghost use Rattle.mk_model.specs.Expansions.{hydrogen};
ghost use Rattle.mk_model.specs.Pieces.{before};
ghost use Rattle.mk_model.specs.QueryFits.{IsAtomOf};

use crate::places::Layout;
use mk_model::{AtomTest, GraphAtom, Kind, Memory};
use std::alloc::Global;

/// A hydrogen, with every other test off.
pub fn hydrogen() -> GraphAtom
    ensures { result ≡ hydrogen }
{
    GraphAtom {
        test: AtomTest::of_kind(Kind::Element(1)),
        free: 0,
    }
}

/// The atoms with attachment point 1 and 2.
pub fn expanded_points(alloc: Global, layout: &Layout) -> Result<Vec<u32>, Memory>
    requires { All (IsAtomOf layout.now.template) layout.now.template.points }
    ensures { IfOk result (λ points. points.items ≡ map (λ x. before layout.now.template layout.now.pieces x + 1) layout.now.template.points) }
{
    let mut points = Vec::with_capacity(alloc, 2)?;
    for x in layout.template().points() {
        points.push(layout.before(*x) + 1)?;
    }
    Ok(points)
}
