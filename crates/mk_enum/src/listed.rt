// Structures that are listed.
use mk_model::{Bytes, Keys, Place};

/// The codes of structures in order, the texts of the structures one behind the other, the place
/// behind them, and whether there are no others.
#[derive(Debug, Drop)]
pub struct Structures {
    pub codes: Keys,
    pub text: Bytes,
    pub place: Place,
    pub ended: bool,
}
