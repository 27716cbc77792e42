// A keeper of tables in a database.
ghost use Rattle.std.specs.Prelude.{◌≡◌, false, [], Ok, Err, All, Some, IfOk, IfErr, IfSome, IsTrue};
ghost use Rattle.sqlite_store.specs.FileStore.{view};
ghost use Rattle.sqlite_wal.specs.Files.{image_at};
ghost use Rattle.sqlite.specs.State.{HasCleanDisk};
ghost use Rattle.sqlite.specs.Held.{state, IsNew};
ghost use Rattle.sqlite.specs.Start.{FindsIn};
ghost use Rattle.sqlite.specs.Files.{over_files, file_state, IsOpened, IsBlankAs};
ghost use Rattle.mk_outside.specs.declared.tables.Tables.{Tables as AllTables};
ghost use Rattle.mk_outside.specs.Counts.{Counts};
ghost use Rattle.mk_outside.specs.Tables.{CanKeep};
ghost use Rattle.mk_outside.specs.Told.{committed, is_failed_keep};
ghost use Rattle.mk_sqlite.specs.Told.{tables_of};
ghost use Rattle.mk_sqlite.specs.Keeps.{FilesStandFor};
ghost use Rattle.mk_sqlite.specs.Laws.{told_is_sound};
ghost use Rattle.mk_sqlite.specs.Keeper.{kept_tables, IsKeptSound, handed_back, StaysKept, CrashLeaves, FaultLeaves, AreKeptTables};

use crate::changes;
use crate::opening::opened_at;
use mk_outside::{Change, KeepFail, Keeper, Tables};
use sqlite::{Alter, Connection, File, FileFrom, FileStore, Start};
use std::alloc::Global;

/// A keeper of tables in a database.
#[derive(Drop)]
pub struct SqlKeeper<S: Alter = FileStore<File>> {
    opened: Result<Connection<S>, KeepFail>,
    faults: u64,
}

impl SqlKeeper {
    /// Opens the file, or makes it, without checksums of the library's own. `start` stands for what
    /// the file and its log hold. Where that fails the keeper is shut, and each call answers why. A
    /// file of one byte that isn't 0 is no store, and stays as it is.
    pub fn at<B: Start>(rt: &HostRuntime, path: &str, start: B) -> SqlKeeper<FileStore<FileFrom<B>>>
        ensures faults { result.faults ≡ 0 }
        ensures opened { IfOk result.opened (λ c. HasCleanDisk (file_state c) → IsOpened c) }
        ensures found { IfOk result.opened (λ c. HasCleanDisk (file_state c) → FindsIn (image_at B.Start) (file_state c)) }
        ensures sound { IfOk result.opened (λ c. HasCleanDisk (file_state c) → IsKeptSound over_files result.opened) }
        ensures starts { (t : AllTables) → FilesStandFor (image_at B.Start) t → IsKeptSound over_files result.opened → kept_tables over_files result.opened ≡ Some t }
        ensures fresh { IfOk result.opened IsNew }
        ensures plain { IfOk result.opened (λ c. HasCleanDisk (file_state c) → IsBlankAs false (image_at B.Start) → (view c.store).has_sums ≡ false) }
    {
        SqlKeeper {
            opened: opened_at(rt, path, start),
            faults: 0,
        }
    }
}

impl<S: Alter> SqlKeeper<S> {
    /// A keeper over an open database, which is in no transaction.
    pub fn over(connection: Connection<S>) -> SqlKeeper<S>
        requires { connection.in_transaction ≡ false }
        ensures faults { result.faults ≡ 0 }
        ensures opened { result.opened ≡ Ok connection }
        ensures sound { HasCleanDisk (state S.Store connection) → IsTrue (state S.Store connection).is_open → IsKeptSound S.Store result.opened }
        ensures tells { IsKeptSound S.Store result.opened → kept_tables S.Store result.opened ≡ tables_of (state S.Store connection).committed }
    {
        SqlKeeper {
            opened: Ok(connection),
            faults: 0,
        }
    }

    /// Hands the connection back, where there is one.
    pub fn back(self) -> Option<Connection<S>>
        ensures { result ≡ handed_back self.opened }
    {
        match self.into_opened() {
            Ok(connection) => Some(connection),
            Err(_) => None,
        }
    }

    // The connection, or why there is none.
    pub(crate) fn into_opened(self) -> Result<Connection<S>, KeepFail>
        ensures { result ≡ self.opened }
    {
        let SqlKeeper { opened, faults: _ } = self;
        opened
    }

    // The answer, which counts as a fault where it is a failure.
    fn counted<T: Drop>(&mut self, answer: Result<T, KeepFail>) -> Result<T, KeepFail>
        ensures same { result ≡ answer }
        ensures counted { Counts (is_failed_keep answer) self.old.faults self.new.faults }
        ensures opened { self.new.opened ≡ self.old.opened }
    {
        if let Err(KeepFail::Failed) = &answer {
            self.faults = self.faults.saturating_add(1);
        }
        answer
    }
}

impl<S: Alter> Keeper for SqlKeeper<S> {
    ghost tables = { λ k. kept_tables S.Store k.opened };

    ghost sound = { λ k. IsKeptSound S.Store k.opened };

    ghost faults = { λ k. k.faults };

    ghost untold = { λ k. told_is_sound (record { view = S.Store.view; faults = S.Store.faults; recovers = S.Store.recovers; is_shielded = S.Store.is_shielded; is_step = S.Store.is_step; blamed = S.Store.blamed; names = S.Store.names }) k.opened };

    fn load(&mut self, alloc: Global) -> Result<Tables, KeepFail>
        ensures sound { IsKeptSound S.Store self.new.opened → IsKeptSound S.Store self.old.opened }
        ensures kept { IsKeptSound S.Store self.new.opened → IfSome (kept_tables S.Store self.old.opened) (λ t. kept_tables S.Store self.new.opened ≡ Some t) }
        ensures gives { IsKeptSound S.Store self.new.opened → IfSome (kept_tables S.Store self.old.opened) (λ t. IfOk result (λ loaded. loaded ≡ t)) }
        ensures counted { Counts (is_failed_keep result) self.old.faults self.new.faults }
        ensures shut { IfErr self.old.opened (λ fail. result ≡ Err fail) }
        ensures stays_shut { IfErr self.old.opened (λ fail. self.new.opened ≡ Err fail) }
        ensures stays { StaysKept S.Store self.old.opened self.new.opened }
        ensures crash { CrashLeaves S.Store self.old.opened self.new.opened [] }
        ensures after_fault { FaultLeaves S.Store self.old.opened self.new.opened }
        ensures formed { IsKeptSound S.Store self.new.opened → IfOk result (AreKeptTables S.Store self.old.opened) }
    {
        let answer = match &mut self.opened {
            Ok(connection) => changes::load(alloc, connection),
            Err(fail) => Err(*fail),
        };
        self.counted(answer)
    }

    fn commit(&mut self, alloc: Global, batch: &[Change]) -> Result<(), KeepFail>
        requires { All CanKeep batch.now }
        ensures sound { IsKeptSound S.Store self.new.opened → IsKeptSound S.Store self.old.opened }
        ensures told { IsKeptSound S.Store self.new.opened → IfSome (kept_tables S.Store self.old.opened) (λ t. kept_tables S.Store self.new.opened ≡ Some (committed batch.now t result)) }
        ensures counted { Counts (is_failed_keep result) self.old.faults self.new.faults }
        ensures shut { IfErr self.old.opened (λ fail. result ≡ Err fail) }
        ensures stays_shut { IfErr self.old.opened (λ fail. self.new.opened ≡ Err fail) }
        ensures stays { StaysKept S.Store self.old.opened self.new.opened }
        ensures crash { CrashLeaves S.Store self.old.opened self.new.opened batch.now }
        ensures after_fault { FaultLeaves S.Store self.old.opened self.new.opened }
    {
        let answer = match &mut self.opened {
            Ok(connection) => changes::commit(alloc, connection, batch),
            Err(fail) => Err(*fail),
        };
        self.counted(answer)
    }
}
