// Lists that are mostly short, which contracts see as plain lists.
ghost use Rattle.std.specs.Prelude.{◌≡◌, ◌++◌, ◌∷◌, [], IfOk, OnOk, OnErr};

use mk_text::Memory;
use smallvec::SmallVec;
use std::alloc::Global;
use std::default::MadeWith;
use std::marker::Model;

/// A list of items. Up to `N` of them are kept without memory of their own.
#[derive(Debug, Drop)]
pub struct ShortList<T, const N: usize> {
    items: SmallVec<T, N>,
}

impl<T, const N: usize> Model for ShortList<T, N> {
    ghost use Rattle.std.specs.Prelude.{List};

    ghost Value = { List T };

    ghost view = { λ list. list.items.items };
}

impl<T, const N: usize> ShortList<T, N> {
    pub fn as_slice(&self) -> &[T]
        ensures { result.now ≡ self.now }
    {
        self.items.as_slice()
    }
}

impl<T: MadeWith<Global> + Drop, const N: usize> ShortList<T, N> {
    /// The empty list. It takes no memory.
    pub fn new(alloc: Global) -> ShortList<T, N>
        ensures { result ≡ [] }
    {
        ShortList {
            items: SmallVec::new(alloc),
        }
    }

    // The empty list, with room for so many items.
    pub(crate) fn with_room(alloc: Global, count: usize) -> Result<ShortList<T, N>, Memory>
        ensures { IfOk result (λ list. list ≡ []) }
    {
        Ok(ShortList {
            items: SmallVec::with_capacity(alloc, count)?,
        })
    }

    pub fn push(&mut self, item: T) -> Result<(), Memory>
        ensures ok { OnOk result (self.new ≡ self.old ++ item ∷ []) }
        ensures err { OnErr result (self.new ≡ self.old) }
    {
        self.items.push(item)?;
        Ok(())
    }
}
