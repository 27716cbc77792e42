// Short lists of elements.
ghost use Rattle.std.specs.Prelude.{◌≡◌, ◌++◌, ◌∷◌, [], IfOk, OnOk, OnErr};

use mk_text::Memory;
use smallvec::SmallVec;
use std::alloc::Global;
use std::marker::Model;

/// A list of atomic numbers. Up to sixteen are kept without memory of their own.
#[derive(Debug, Drop)]
pub struct Elements {
    items: SmallVec<u8, 16>,
}

impl Model for Elements {
    ghost use Rattle.std.specs.Prelude.{List, ℕ};

    ghost Value = { List ℕ };

    ghost view = { λ list. list.items.items };
}

impl Elements {
    /// The empty list. It takes no memory.
    pub fn new(alloc: Global) -> Elements
        ensures { result ≡ [] }
    {
        Elements {
            items: SmallVec::new(alloc),
        }
    }

    /// A copy. Up to sixteen elements take no memory.
    pub fn copied(&self, alloc: Global) -> Result<Elements, Memory>
        ensures { IfOk result (λ copy. copy ≡ self.now) }
    {
        Ok(Elements {
            items: SmallVec::from_slice(alloc, self.items.as_slice())?,
        })
    }

    pub fn as_slice(&self) -> &[u8]
        ensures { result.now ≡ self.now }
    {
        self.items.as_slice()
    }

    pub fn push(&mut self, element: u8) -> Result<(), Memory>
        ensures ok { OnOk result (self.new ≡ self.old ++ element ∷ []) }
        ensures err { OnErr result (self.new ≡ self.old) }
    {
        // For the proof alone: `push` would hand the item back where there is no room.
        self.items.extend_from_slice(&[element])
    }
}
