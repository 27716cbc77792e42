// Sources in memory.
ghost use Rattle.std.specs.Prelude.{◌≡◌, ◌≤◌, false, length, min, take, drop, Some, IfOk, is_err};
ghost use Rattle.std.specs.Io.KnownBytes.{ReadConsumes};
ghost use Rattle.mk_outside.specs.Counts.{Counts};
ghost use Rattle.mk_outside.specs.Calls.{before_calls, fails_next};
ghost use Rattle.mk_outside.specs.Sources.{left_after, source_after};

use crate::calls::Calls;
use crate::{Bytes, CallNumbers, Failed, Source};
use std::marker::Model;

// Bytes of which some were given. Contracts see those that are left.
#[derive(Debug, Drop)]
struct Left {
    bytes: Bytes,
    from: usize,
    ghost within: { from ≤ length bytes },
}

impl Model for Left {
    ghost use Rattle.std.specs.Prelude.{List, ℕ, drop};

    ghost Value = { List ℕ };

    ghost view = { λ left. drop left.from left.bytes };
}

impl Left {
    fn of(bytes: Bytes) -> Left
        ensures { result ≡ bytes }
    {
        Left { bytes, from: 0 }
    }

    // Moves the first bytes into the buffer, and gives their number.
    fn give(&mut self, buf: &mut [u8]) -> usize
        ensures count { result ≡ min (length buf.old) (length self.old) }
        ensures moved { take result buf.new ≡ take result self.old }
        ensures left { self.new ≡ drop result self.old }
    {
        let left = &self.bytes.as_slice()[self.from..];
        let count = left.len().min(buf.len());
        buf[..count].copy_from_slice(&left[..count]);
        self.from += count;
        count
    }
}

/// A source in memory, whose calls fail by their numbers. A call that fails takes nothing.
#[derive(Debug, Drop)]
pub struct MemSource {
    left: Left,
    calls: Calls,
}

impl Model for MemSource {
    ghost use Rattle.mk_outside.specs.Sources.{SourceState};

    ghost Value = { SourceState };

    ghost view = { λ s. record { left = s.left; calls = s.calls } };
}

impl MemSource {
    pub fn new(left: Bytes, failing: CallNumbers) -> MemSource
        ensures { result ≡ record { left = left; calls = before_calls failing } }
    {
        MemSource {
            left: Left::of(left),
            calls: Calls::new(failing),
        }
    }
}

impl Source for MemSource {
    ghost left = { λ s. Some s.left };

    ghost faults = { λ s. s.calls.faults };

    fn read(&mut self, buf: &mut [u8]) -> Result<usize, Failed>
        ensures within { IfOk result (λ n. n ≤ length buf.old) }
        ensures told { ReadConsumes (Some self.old.left) (Some self.new.left) result buf.new }
        ensures counted { Counts (is_err result) self.old.calls.faults self.new.calls.faults }
        ensures fails { is_err result ≡ fails_next self.old.calls }
        ensures after { self.new ≡ source_after self.old result }
    {
        if self.calls.begin() {
            self.calls.fault();
            return Err(Failed);
        }
        Ok(self.left.give(buf))
    }
}

/// A source in memory that never fails.
#[derive(Debug, Drop)]
pub struct SureSource {
    left: Left,
}

impl Model for SureSource {
    ghost use Rattle.std.specs.Prelude.{List, ℕ};

    ghost Value = { List ℕ };

    ghost view = { λ s. s.left };
}

impl SureSource {
    pub fn new(left: Bytes) -> SureSource
        ensures { result ≡ left }
    {
        SureSource {
            left: Left::of(left),
        }
    }
}

impl Source for SureSource {
    ghost left = { λ s. Some s };

    ghost faults = { λ _. 0 };

    fn read(&mut self, buf: &mut [u8]) -> Result<usize, Failed>
        ensures within { IfOk result (λ n. n ≤ length buf.old) }
        ensures told { ReadConsumes (Some self.old) (Some self.new) result buf.new }
        ensures counted { Counts (is_err result) 0 0 }
        ensures sure { is_err result ≡ false }
        ensures after { self.new ≡ left_after self.old result }
    {
        Ok(self.left.give(buf))
    }
}
