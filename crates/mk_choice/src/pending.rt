// What is still to be chosen, and what that can add.
use mk_model::Slot;

/// Slots of a template that are open, and behind them those of the templates around it.
#[derive(Clone, Copy)]
pub enum Pending<'a> {
    Nothing,
    Slots(&'a [Slot], &'a Pending<'a>),
}

/// For each group from 1 on how many of the open slots are its sites, and how often it can be
/// filled there at most.
#[derive(Clone, Copy, Debug)]
pub struct Ahead {
    pub sites: [u32; 32],
    pub filled: [u32; 32],
}

/// For each group from 1 on how often it has to be filled further at least, and how often it may be
/// at most. Of the most a number above 512 says nothing.
#[derive(Clone, Copy, Debug)]
pub struct Limits {
    pub wants: [u32; 32],
    pub caps: [u32; 32],
}
