// Pages that stop within a budget of turns.
use mk_model::{Keys, Place};

/// Why a page stops: it has as many keys as were asked for; or no key is left; or the budget is spent.
#[derive(Clone, Copy, Debug, PartialEq, Eq)]
pub enum Stop {
    Full,
    Ended,
    Paused,
}

/// Keys in order, the place from which the others are left, and why there are no more of them here.
#[derive(Debug, Drop)]
pub struct Paced {
    pub hits: Keys,
    pub place: Place,
    pub stop: Stop,
}
