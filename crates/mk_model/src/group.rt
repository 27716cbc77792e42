// Groups: what may be put in at a site, and how often.
ghost use Rattle.std.specs.Prelude.{◌≡◌, ◌++◌, ◌∷◌, [], OnOk, OnErr};

use mk_text::{Memory, Numbers};
use smallvec::SmallVec;
use std::alloc::Global;
use std::marker::Model;

/// The numbers from `least` to `most`. There is none where `least` is above `most`.
#[derive(Clone, Copy, Debug, Default, PartialEq, Eq)]
pub struct Interval {
    pub least: u32,
    pub most: u32,
}

/// How often a group may be filled: as often as one of the intervals says. Up to four need no
/// memory of their own.
#[derive(Debug, Drop)]
pub struct Range {
    items: SmallVec<Interval, 4>,
}

impl Model for Range {
    ghost use Rattle.std.specs.Prelude.{List};
    ghost use Rattle.mk_model.specs.declared.group.Interval.{Interval};

    ghost Value = { List Interval };

    ghost view = { λ list. list.items.items };
}

impl Range {
    /// The empty list. It takes no memory.
    pub fn new(alloc: Global) -> Range
        ensures { result ≡ [] }
    {
        Range {
            items: SmallVec::new(alloc),
        }
    }

    pub fn as_slice(&self) -> &[Interval]
        ensures { result.now ≡ self.now }
    {
        self.items.as_slice()
    }

    pub fn push(&mut self, interval: Interval) -> Result<(), Memory>
        ensures ok { OnOk result (self.new ≡ self.old ++ interval ∷ []) }
        ensures err { OnErr result (self.new ≡ self.old) }
    {
        // For the proof alone: `push` would hand the item back where there is no room.
        self.items.extend_from_slice(&[interval])
    }
}

/// A group: the numbers of its templates, the group that it asks for, and how often it may be
/// filled.
#[derive(Debug, Drop)]
pub struct Group {
    pub members: Numbers,
    /// The group whose range is asked for where this one is filled; 0 where none is.
    pub then_group: u8,
    /// An unfilled site is hydrogen.
    pub rest_hydrogen: bool,
    pub range: Range,
}
