// What a site becomes that no member fills.
ghost use Rattle.std.specs.Prelude.{◌≡◌};
ghost use Rattle.mk_model.specs.Labels.{asks_rest_hydrogens, draws_rest_hydrogens};
ghost use Rattle.mk_layout.specs.Sites.{left_open_by};

use crate::part::Shape;
use crate::piece::Piece;
use mk_model::{Query, Slot};

/// What an unfilled site becomes.
pub fn left_open(rest: bool, second: u32) -> Piece
    ensures { result ≡ left_open_by rest second }
{
    if !rest {
        return Piece::of(Shape::Nothing);
    }
    Piece::of(Shape::Hydrogens(if second == 0 { 1 } else { 2 }))
}

/// Hydrogens stand in the place of an unfilled site where one of its labels says so.
pub fn draws_rest_hydrogens(query: &Query, slot: &Slot) -> bool
    ensures { result ≡ draws_rest_hydrogens query.now slot.now }
{
    for g in slot.labels() {
        if asks_rest_hydrogens(query, *g) {
            return true;
        }
    }
    false
}

// Group g asks for hydrogens.
fn asks_rest_hydrogens(query: &Query, g: u32) -> bool
    ensures { result ≡ asks_rest_hydrogens query.now g }
{
    match query.groups().get((g as usize).saturating_sub(1)) {
        Some(group) => group.rest_hydrogen,
        None => false,
    }
}
