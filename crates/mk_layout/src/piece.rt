// What a slot becomes, seen as in mk_model.
ghost use Rattle.std.specs.Prelude.{◌≡◌};
ghost use Rattle.mk_model.specs.Pieces.{Piece as Seen};
ghost use Rattle.mk_layout.specs.Shapes.{seen};

use crate::part::Shape;
use std::marker::Model;

/// What a slot becomes.
#[derive(Debug, Drop)]
pub struct Piece {
    shape: Shape,
}

impl Model for Piece {
    ghost Value = { Seen };

    ghost view = { λ p. seen p.shape };
}

impl Piece {
    pub fn of(shape: Shape) -> Piece
        ensures { result ≡ seen shape }
    {
        Piece { shape }
    }

    pub fn shape(&self) -> &Shape
        ensures { seen result.now ≡ self.now }
    {
        &self.shape
    }
}
