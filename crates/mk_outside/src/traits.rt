// The traits of the outside.
ghost use Rattle.std.specs.Prelude.{◌≡◌, ◌≤◌, ℕ, List, Option, Some, length, All, IfOk, IfSome, IsSome, is_err};
ghost use Rattle.std.specs.Io.KnownBytes.{ReadConsumes};
ghost use Rattle.mk_outside.specs.declared.tables.Tables.{Tables as AllTables};
ghost use Rattle.mk_outside.specs.Counts.{Counts};
ghost use Rattle.mk_outside.specs.Tables.{CanKeep};
ghost use Rattle.mk_outside.specs.Told.{Puts, Reads, Fills, committed, is_failed_put, is_failed_read, is_failed_keep, is_absence};

use crate::{Change, Failed, FileFail, KeepFail, PutFail, ReadEnd, Tables};
use std::alloc::Global;

/// What bytes are written to.
pub trait Sink {
    /// The bytes so far, where they are told.
    ghost so_far: { Self → Option (List ℕ) };

    /// How many calls failed.
    ghost faults: { Self → ℕ };

    /// Appends the whole piece. After a failure a prefix of it was appended, and after `Memory`
    /// nothing.
    fn put(&mut self, piece: &[u8]) -> Result<(), PutFail>
        ensures told { Puts (so_far self.old) (so_far self.new) piece.now result }
        ensures counted { Counts (is_failed_put result) (faults self.old) (faults self.new) };
}

/// Files by name.
pub trait Files {
    /// For each name its bytes, or that it isn't there, where that is told.
    ghost look_up: { Self → Option (List ℕ → Option (List ℕ)) };

    /// How many calls failed.
    ghost faults: { Self → ℕ };

    /// How many of those failed on a name that isn't there.
    ghost absences: { Self → ℕ };

    /// Empties `out`, and reads the file into it where it has at most `most` bytes. After any other
    /// answer than `Whole` `out` is empty.
    fn read(
        &mut self,
        alloc: Global,
        name: &str,
        most: usize,
        out: &mut Vec<u8>,
    ) -> Result<ReadEnd, FileFail>
        ensures kept { look_up self.new ≡ look_up self.old }
        ensures told { IfSome (look_up self.old) (λ look. Reads (look name.now) most out.new.items result) }
        ensures fills { Fills most out.new.items result }
        ensures counted { Counts (is_failed_read result) (faults self.old) (faults self.new) }
        ensures never_falls { absences self.old ≤ absences self.new }
        ensures missed { IfSome (look_up self.old)
            (λ look. Counts (is_absence (look name.now) result) (absences self.old) (absences self.new)) };
}

/// A source of bytes.
pub trait Source {
    /// The bytes that are left, where they are told.
    ghost left: { Self → Option (List ℕ) };

    /// How many calls failed.
    ghost faults: { Self → ℕ };

    /// Moves the first bytes that are left into the buffer, and gives their number: 0 for a buffer
    /// that isn't empty exactly at the end. After a failure the bytes left are as before.
    fn read(&mut self, buf: &mut [u8]) -> Result<usize, Failed>
        ensures within { IfOk result (λ n. n ≤ length buf.old) }
        ensures told { ReadConsumes (left self.old) (left self.new) result buf.new }
        ensures counted { Counts (is_err result) (faults self.old) (faults self.new) };
}

/// A keeper of tables.
pub trait Keeper {
    /// The tables, where they are told.
    ghost tables: { Self → Option AllTables };

    /// What is told can be relied on.
    ghost sound: { Self → Type 0 };

    /// How many calls failed.
    ghost faults: { Self → ℕ };

    /// Gives the tables, and leaves them as they are.
    fn load(&mut self, alloc: Global) -> Result<Tables, KeepFail>
        ensures sound { sound self.new → sound self.old }
        ensures kept { sound self.new → IfSome (tables self.old) (λ t. tables self.new ≡ Some t) }
        ensures gives { sound self.new → IfSome (tables self.old) (λ t. IfOk result (λ loaded. loaded ≡ t)) }
        ensures counted { Counts (is_failed_keep result) (faults self.old) (faults self.new) };

    /// Makes all changes of the batch in order. After a failure the tables are as before.
    fn commit(&mut self, alloc: Global, batch: &[Change]) -> Result<(), KeepFail>
        requires { All CanKeep batch.now }
        ensures sound { sound self.new → sound self.old }
        ensures told { sound self.new → IfSome (tables self.old) (λ t. tables self.new ≡ Some (committed batch.now t result)) }
        ensures counted { Counts (is_failed_keep result) (faults self.old) (faults self.new) };

    /// A keeper that isn't sound tells nothing.
    ghost untold: { (self : Self) → IsSome (tables self) → sound self };
}
