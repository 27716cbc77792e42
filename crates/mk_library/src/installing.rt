// A pending change made.
ghost use Rattle.std.specs.Prelude.{◌≡◌, ◌+◌, ◌≤◌};
ghost use Rattle.mk_outside.specs.Store.{record_puts};
ghost use Rattle.mk_outside.specs.Tables.{after_batch};
ghost use Rattle.mk_library.specs.Library.{tables_of};
ghost use Rattle.mk_library.specs.Pending.{PendingFits};

use crate::{Library, Pending};
use mk_outside::Change;

impl Library {
    /// Makes a pending change that fits. It takes no memory, and from the room to spare at most 1 for
    /// each record that is put.
    pub fn install(&mut self, pending: Pending)
        requires { PendingFits self.old pending }
        ensures tables { tables_of self.new ≡ after_batch pending.changes (tables_of self.old) }
        ensures spare { self.old.spare ≤ self.new.spare + record_puts pending.changes }
    {
        let (changes, mols) = pending.into_parts();
        let mut changes = changes.into_iter();
        let mut mols = mols.into_iter();
        while let Some(change) = changes.next() {
            match change {
                Change::PutRecord { number, text } => {
                    let Some(mol) = mols.next() else {
                        unreachable!()
                    };
                    self.put(number, text, mol);
                }
                Change::DropRecord { number } => self.take_out(number),
                _ => unreachable!(),
            }
        }
    }
}
