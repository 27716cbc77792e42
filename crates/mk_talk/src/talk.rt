// Input and output as one object.
ghost use Rattle.std.specs.Prelude.{◌≤◌, List, Option, IfOk, length};
ghost use Rattle.mk_talk.specs.declared.event.Event.{Event};
ghost use Rattle.mk_talk.specs.Events.{Hears, Says};

use mk_outside::{Failed, PutFail};

/// What a session reads of and writes to.
pub trait Talk {
    /// The pieces that were read and put so far, where they are told.
    ghost history: { Self → Option (List Event) };

    /// Moves the next bytes into the buffer, and gives their number: 0 at the end.
    fn read(&mut self, buf: &mut [u8]) -> Result<usize, Failed>
        ensures within { IfOk result (λ n. n ≤ length buf.old) }
        ensures told { Hears (history self.old) (history self.new) result buf.new };

    /// Puts the whole piece. After a failure a prefix of it was put, and after `Memory` nothing.
    fn put(&mut self, piece: &[u8]) -> Result<(), PutFail>
        ensures told { Says (history self.old) (history self.new) piece.now result };
}
