// Sinks in memory.
ghost use Rattle.std.specs.Prelude.{◌≡◌, ◌++◌, false, Some, OnErr, if◌then◌else◌, is_ok};
ghost use Rattle.mk_outside.specs.Counts.{Counts};
ghost use Rattle.mk_outside.specs.Told.{Puts, is_failed_put};
ghost use Rattle.mk_outside.specs.Calls.{before_calls, fails_next};
ghost use Rattle.mk_outside.specs.Sinks.{sink_after};

use crate::calls::Calls;
use crate::{Bytes, CallNumbers, PutFail, Sink};
use std::marker::Model;

/// A sink in memory, whose calls fail by their numbers. A call that fails appends nothing.
#[derive(Debug, Drop)]
pub struct MemSink {
    so_far: Vec<u8>,
    calls: Calls,
}

impl Model for MemSink {
    ghost use Rattle.mk_outside.specs.Sinks.{SinkState};

    ghost Value = { SinkState };

    ghost view = { λ s. record { bytes = s.so_far.items; calls = s.calls } };
}

impl MemSink {
    pub fn new(so_far: Bytes, failing: CallNumbers) -> MemSink
        ensures { result ≡ record { bytes = so_far; calls = before_calls failing } }
    {
        MemSink {
            so_far: so_far.into_vec(),
            calls: Calls::new(failing),
        }
    }

    /// The bytes so far.
    pub fn bytes(&self) -> &[u8]
        ensures { result.now ≡ self.now.bytes }
    {
        self.so_far.as_slice()
    }
}

impl Sink for MemSink {
    ghost so_far = { λ s. Some s.bytes };

    ghost faults = { λ s. s.calls.faults };

    fn put(&mut self, piece: &[u8]) -> Result<(), PutFail>
        ensures told { Puts (Some self.old.bytes) (Some self.new.bytes) piece.now result }
        ensures counted { Counts (is_failed_put result) self.old.calls.faults self.new.calls.faults }
        ensures fails { is_failed_put result ≡ fails_next self.old.calls }
        ensures after { self.new ≡ sink_after self.old piece.now result }
    {
        if self.calls.begin() {
            self.calls.fault();
            return Err(PutFail::Failed);
        }
        self.so_far.extend_from_slice(piece)?;
        Ok(())
    }
}

/// A sink in memory that never fails.
#[derive(Debug, Drop)]
pub struct SureSink {
    so_far: Vec<u8>,
}

impl Model for SureSink {
    ghost use Rattle.std.specs.Prelude.{List, ℕ};

    ghost Value = { List ℕ };

    ghost view = { λ s. s.so_far.items };
}

impl SureSink {
    pub fn new(so_far: Bytes) -> SureSink
        ensures { result ≡ so_far }
    {
        SureSink {
            so_far: so_far.into_vec(),
        }
    }

    /// The bytes so far.
    pub fn bytes(&self) -> &[u8]
        ensures { result.now ≡ self.now }
    {
        self.so_far.as_slice()
    }
}

impl Sink for SureSink {
    ghost so_far = { λ s. Some s };

    ghost faults = { λ _. 0 };

    fn put(&mut self, piece: &[u8]) -> Result<(), PutFail>
        ensures told { Puts (Some self.old) (Some self.new) piece.now result }
        ensures counted { Counts (is_failed_put result) 0 0 }
        ensures sure { is_failed_put result ≡ false }
    {
        self.so_far.extend_from_slice(piece)?;
        Ok(())
    }
}
