// A change of kept queries and saved searches that was made ready and isn't made yet.
ghost use Rattle.std.specs.Prelude.{◌≡◌, All};
ghost use Rattle.mk_outside.specs.Tables.{CanKeep, after_batch};
ghost use Rattle.mk_kept.specs.Saved.{saved_tables};
ghost use Rattle.mk_kept.specs.SavedPending.{AreReady, IsOfSaved, SavedFits};

use crate::saved::Saved;
use mk_model::Query;
use mk_outside::Change;
use std::marker::Model;

/// The changes, with the query of each text that is put, in order.
#[derive(Debug, Drop)]
pub struct SavedPending {
    changes: Vec<Change>,
    queries: Vec<Query>,
}

impl Model for SavedPending {
    ghost use Rattle.mk_kept.specs.SavedPending.{AreReady, SavedPendingView};

    ghost Value = { SavedPendingView };

    ghost view = { λ pending. record { changes = pending.changes.items; queries = pending.queries.items } };

    ghost invariant = { λ pending. AreReady pending.changes.items pending.queries.items };
}

impl SavedPending {
    /// Takes the lists over.
    pub fn of(changes: Vec<Change>, queries: Vec<Query>) -> SavedPending
        requires { AreReady changes.items queries.items }
        ensures changes { result.changes ≡ changes.items }
        ensures queries { result.queries ≡ queries.items }
    {
        SavedPending { changes, queries }
    }

    /// The changes, in order: what a keeper is to keep.
    pub fn changes(&self) -> &[Change]
        ensures list { result.now ≡ self.now.changes }
        ensures kept { All CanKeep result.now }
        ensures saved { All IsOfSaved result.now }
    {
        self.changes.as_slice()
    }

    fn into_parts(self) -> (Vec<Change>, Vec<Query>)
        ensures changes { result.0.items ≡ self.changes }
        ensures queries { result.1.items ≡ self.queries }
        ensures ready { AreReady self.changes self.queries }
    {
        let SavedPending { changes, queries } = self;
        (changes, queries)
    }
}

impl Saved {
    /// Makes a pending change that fits. It takes no memory.
    pub fn install(&mut self, pending: SavedPending)
        requires { SavedFits self.old pending }
        ensures { saved_tables self.new ≡ after_batch pending.changes (saved_tables self.old) }
    {
        let (changes, queries) = pending.into_parts();
        let mut changes = changes.into_iter();
        let mut queries = queries.into_iter();
        while let Some(change) = changes.next() {
            match change {
                Change::PutQuery { number, name, text } => {
                    let Some(query) = queries.next() else {
                        unreachable!()
                    };
                    self.put_query(number, name.into_vec(), text, query);
                }
                Change::DropQuery { name } => self.drop_query(name.as_slice()),
                Change::PutCursor {
                    number,
                    name,
                    place,
                } => self.put_cursor(number, name, place),
                Change::DropCursor { number } => self.drop_cursor(number),
                _ => unreachable!(),
            }
        }
    }
}
