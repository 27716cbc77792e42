// A session: the tables that it stands for.
ghost use Rattle.std.specs.Prelude.{◌≡◌};
ghost use Rattle.mk_outside.specs.Counts.{Counts};
ghost use Rattle.mk_session.specs.Opening.{Begins, IsOpened, is_store};

use crate::{BeginFail, RowKind};
use mk_kept::{Saved, saved_of};
use mk_library::{Library, RestoreFault};
use mk_outside::{KeepFail, Keeper, Tables};
use std::alloc::Global;
use std::marker::Model;

/// A session, which stands for tables.
#[derive(Drop)]
pub struct Session {
    pub(crate) library: Library,
    pub(crate) saved: Saved,
}

impl Model for Session {
    ghost use Rattle.mk_outside.specs.declared.tables.Tables.{Tables};
    ghost use Rattle.mk_found.specs.Findings.{stands_for};

    ghost Value = { Tables };

    ghost view = { λ s. stands_for s.library s.saved };
}

impl Session {
    /// Loads the keeper and reads its rows.
    pub fn begin<K: Keeper>(alloc: Global, keeper: &mut K) -> Result<Session, BeginFail>
        ensures begun { Begins (K.sound keeper.new) (K.tables keeper.old) (K.tables keeper.new) result }
        ensures sound { K.sound keeper.new → K.sound keeper.old }
        ensures counted { Counts (is_store result) (K.faults keeper.old) (K.faults keeper.new) }
    {
        match keeper.load(alloc) {
            Err(KeepFail::Failed) => Err(BeginFail::Store),
            Err(KeepFail::Memory) => Err(BeginFail::Memory),
            Ok(tables) => opened(alloc, tables),
        }
    }
}

// The session of these tables, or their first row that doesn't read.
fn opened(alloc: Global, tables: Tables) -> Result<Session, BeginFail>
    ensures { IsOpened tables result }
{
    let library = match Library::restore(alloc, tables.records.as_slice(), tables.next_record) {
        Ok(library) => library,
        Err(RestoreFault::Memory) => return Err(BeginFail::Memory),
        Err(RestoreFault::Bad { number }) => {
            return Err(BeginFail::BadStore {
                kind: RowKind::Records,
                number,
            });
        }
    };
    let saved = match saved_of(alloc, &tables) {
        Ok(saved) => saved,
        Err(fail) => return Err(fail),
    };
    Ok(Session { library, saved })
}
