// A change that was made ready and isn't made yet.
ghost use Rattle.std.specs.Prelude.{◌≡◌, All};
ghost use Rattle.mk_outside.specs.Tables.{CanKeep};
ghost use Rattle.mk_library.specs.Pending.{ArePrepared, IsOfRecords};

use mk_model::Mol;
use mk_outside::Change;
use std::marker::Model;

/// The changes of an edit, with the molecule of each record that is put, in order.
#[derive(Debug, Drop)]
pub struct Pending {
    changes: Vec<Change>,
    mols: Vec<Mol>,
}

impl Model for Pending {
    ghost use Rattle.mk_library.specs.Pending.{ArePrepared, PendingView};

    ghost Value = { PendingView };

    ghost view = { λ pending. record { changes = pending.changes.items; mols = pending.mols.items } };

    ghost invariant = { λ pending. ArePrepared pending.changes.items pending.mols.items };
}

impl Pending {
    // Takes the lists over.
    pub(crate) fn of(changes: Vec<Change>, mols: Vec<Mol>) -> Pending
        requires { ArePrepared changes.items mols.items }
        ensures changes { result.changes ≡ changes.items }
        ensures mols { result.mols ≡ mols.items }
    {
        Pending { changes, mols }
    }

    /// The changes, in order: what a keeper is to keep.
    pub fn changes(&self) -> &[Change]
        ensures list { result.now ≡ self.now.changes }
        ensures kept { All CanKeep result.now }
        ensures records { All IsOfRecords result.now }
    {
        self.changes.as_slice()
    }

    pub(crate) fn into_parts(self) -> (Vec<Change>, Vec<Mol>)
        ensures changes { result.0.items ≡ self.changes }
        ensures mols { result.1.items ≡ self.mols }
        ensures prepared { ArePrepared self.changes self.mols }
    {
        let Pending { changes, mols } = self;
        (changes, mols)
    }
}
