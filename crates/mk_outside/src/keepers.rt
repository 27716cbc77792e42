// Keepers in memory.
ghost use Rattle.std.specs.Prelude.{◌≡◌, ⊤, false, Some, All, IfOk};
ghost use Rattle.mk_outside.specs.Counts.{Counts};
ghost use Rattle.mk_outside.specs.Calls.{before_calls, fails_next};
ghost use Rattle.mk_outside.specs.Tables.{CanKeep};
ghost use Rattle.mk_outside.specs.Told.{committed, is_failed_keep};
ghost use Rattle.mk_outside.specs.Keepers.{keeper_faults, keeper_after_load, keeper_after_commit};

use crate::calls::Calls;
use crate::store::Store;
use crate::{CallNumbers, Change, KeepFail, Keeper, Tables};
use std::alloc::Global;
use std::marker::Model;

/// A keeper in memory, whose calls fail by their numbers. It counts its calls of `load` and of
/// `commit` each by itself.
#[derive(Debug, Drop)]
pub struct MemKeeper {
    store: Store,
    loads: Calls,
    commits: Calls,
}

impl Model for MemKeeper {
    ghost use Rattle.mk_outside.specs.Keepers.{KeeperState};

    ghost Value = { KeeperState };

    ghost view = { λ k. record { tables = k.store; loads = k.loads; commits = k.commits } };
}

impl MemKeeper {
    pub fn new(tables: Tables, loads: CallNumbers, commits: CallNumbers) -> MemKeeper
        ensures { result ≡ record { tables = tables; loads = before_calls loads; commits = before_calls commits } }
    {
        MemKeeper {
            store: Store::new(tables),
            loads: Calls::new(loads),
            commits: Calls::new(commits),
        }
    }

    /// The tables that are kept.
    pub fn tables(&self) -> &Tables
        ensures { result.now ≡ self.now.tables }
    {
        self.store.tables()
    }
}

impl Keeper for MemKeeper {
    ghost tables = { λ k. Some k.tables };

    ghost sound = { λ _. ⊤ };

    ghost faults = { keeper_faults };

    ghost untold = { λ _ _. tt };

    fn load(&mut self, alloc: Global) -> Result<Tables, KeepFail>
        ensures sound { ⊤ → ⊤ }
        ensures kept { ⊤ → Some self.new.tables ≡ Some self.old.tables }
        ensures gives { ⊤ → IfOk result (λ loaded. loaded ≡ self.old.tables) }
        ensures counted { Counts (is_failed_keep result) (keeper_faults self.old) (keeper_faults self.new) }
        ensures fails { is_failed_keep result ≡ fails_next self.old.loads }
        ensures after { self.new ≡ keeper_after_load self.old result }
    {
        if self.loads.begin() {
            self.loads.fault();
            return Err(KeepFail::Failed);
        }
        Ok(self.store.copy(alloc)?)
    }

    fn commit(&mut self, alloc: Global, batch: &[Change]) -> Result<(), KeepFail>
        requires { All CanKeep batch.now }
        ensures sound { ⊤ → ⊤ }
        ensures told { ⊤ → Some self.new.tables ≡ Some (committed batch.now self.old.tables result) }
        ensures counted { Counts (is_failed_keep result) (keeper_faults self.old) (keeper_faults self.new) }
        ensures fails { is_failed_keep result ≡ fails_next self.old.commits }
        ensures after { self.new ≡ keeper_after_commit self.old batch.now result }
    {
        if self.commits.begin() {
            self.commits.fault();
            return Err(KeepFail::Failed);
        }
        self.store.change(alloc, batch)?;
        Ok(())
    }
}

/// A keeper in memory that never fails.
#[derive(Debug, Drop)]
pub struct SureKeeper {
    store: Store,
}

impl Model for SureKeeper {
    ghost use Rattle.mk_outside.specs.declared.tables.Tables.{Tables};

    ghost Value = { Tables };

    ghost view = { λ k. k.store };
}

impl SureKeeper {
    pub fn new(tables: Tables) -> SureKeeper
        ensures { result ≡ tables }
    {
        SureKeeper {
            store: Store::new(tables),
        }
    }

    /// The tables that are kept.
    pub fn tables(&self) -> &Tables
        ensures { result.now ≡ self.now }
    {
        self.store.tables()
    }
}

impl Keeper for SureKeeper {
    ghost tables = { λ k. Some k };

    ghost sound = { λ _. ⊤ };

    ghost faults = { λ _. 0 };

    ghost untold = { λ _ _. tt };

    fn load(&mut self, alloc: Global) -> Result<Tables, KeepFail>
        ensures sound { ⊤ → ⊤ }
        ensures kept { ⊤ → Some self.new ≡ Some self.old }
        ensures gives { ⊤ → IfOk result (λ loaded. loaded ≡ self.old) }
        ensures counted { Counts (is_failed_keep result) 0 0 }
        ensures sure { is_failed_keep result ≡ false }
        ensures same { self.new ≡ self.old }
    {
        Ok(self.store.copy(alloc)?)
    }

    fn commit(&mut self, alloc: Global, batch: &[Change]) -> Result<(), KeepFail>
        requires { All CanKeep batch.now }
        ensures sound { ⊤ → ⊤ }
        ensures told { ⊤ → Some self.new ≡ Some (committed batch.now self.old result) }
        ensures counted { Counts (is_failed_keep result) 0 0 }
        ensures sure { is_failed_keep result ≡ false }
        ensures after { self.new ≡ committed batch.now self.old result }
    {
        self.store.change(alloc, batch)?;
        Ok(())
    }
}
