// A whole run.
ghost use Rattle.std.specs.Prelude.{◌≡◌, Some, IfOk, map};
ghost use Rattle.std.specs.String.{string_bytes};
ghost use Rattle.mk_words.specs.Commands.{kind_of_words};
ghost use Rattle.mk_talk.specs.Frames.{ready_text};
ghost use Rattle.mk_talk.specs.Speaks.{Speaks};
ghost use Rattle.mk_talk.specs.Speaking.{GoesReady, SaysOne, SpeaksOpen, is_session};

use crate::cutting::KEPT_BYTES;
use crate::opening::ready_line;
use crate::puts::put;
use crate::talk::Talk;
use crate::talking::talk_on;
use mk_outside::{Files, Keeper, Memory};
use mk_session::{BeginFail, Session, Status, WordsKind, bad_store_line, command_of_words};
use std::alloc::Global;

/// Opens the store, says so, and answers each line as it comes.
pub fn hold<F: Files, T: Talk, K: Keeper>(
    alloc: Global,
    words: &[String],
    files: &mut F,
    talk: &mut T,
    keeper: &mut K,
) -> Status
    ensures speaks { Speaks (K.sound keeper.new) (map string_bytes words.now) (F.look_up files.old) (K.tables keeper.old) (K.tables keeper.new)
        (T.history talk.old) (T.history talk.new) (F.faults files.old) (F.faults files.new) (K.faults keeper.old) (K.faults keeper.new) result }
    ensures sound { K.sound keeper.new → K.sound keeper.old }
    ensures same_files { F.look_up files.new ≡ F.look_up files.old }
{
    match asks_session(alloc, words) {
        Err(_) => Status::Memory,
        Ok(true) => open(alloc, files, talk, keeper),
        Ok(false) => say(talk, b"words not understood\n", Status::Words),
    }
}

// Whether the words ask for a session: they name a store, or there are none.
fn asks_session(alloc: Global, words: &[String]) -> Result<bool, Memory>
    ensures { IfOk result (λ asks. asks ≡ is_session (kind_of_words (map string_bytes words.now))) }
{
    let kind = command_of_words(alloc, words)?;
    Ok(is_session(&kind))
}

fn is_session(kind: &WordsKind) -> bool
    ensures { result ≡ is_session kind.now }
{
    match kind {
        WordsKind::Script => true,
        _ => false,
    }
}

// Puts the one line of a run.
fn say<T: Talk>(talk: &mut T, line: &[u8], status: Status) -> Status
    ensures { SaysOne (T.history talk.old) (T.history talk.new) line.now status result }
{
    match put(talk, line) {
        Ok(()) => status,
        Err(ends) => ends,
    }
}

// Opens the store, and goes on with the session on it.
fn open<F: Files, T: Talk, K: Keeper>(
    alloc: Global,
    files: &mut F,
    talk: &mut T,
    keeper: &mut K,
) -> Status
    ensures speaks { SpeaksOpen (K.sound keeper.new) (F.look_up files.old) (K.tables keeper.old) (K.tables keeper.new)
        (T.history talk.old) (T.history talk.new) (F.faults files.old) (F.faults files.new) (K.faults keeper.old) (K.faults keeper.new) result }
    ensures sound { K.sound keeper.new → K.sound keeper.old }
    ensures same_files { F.look_up files.new ≡ F.look_up files.old }
{
    match Session::begin(alloc, keeper) {
        Ok(mut session) => begin(alloc, &mut session, files, talk, keeper),
        Err(BeginFail::Store) => Status::Store,
        Err(BeginFail::Memory) => Status::Memory,
        Err(BeginFail::BadStore { kind, number }) => match bad_store_line(alloc, kind, number) {
            Err(_) => Status::Memory,
            Ok(line) => say(talk, line.as_slice(), Status::BadStore),
        },
    }
}

// Says what is held, and answers each line.
fn begin<F: Files, T: Talk, K: Keeper>(
    alloc: Global,
    session: &mut Session,
    files: &mut F,
    talk: &mut T,
    keeper: &mut K,
) -> Status
    ensures ready { GoesReady (F.look_up files.old)
        (record { tables = session.old; files = F.faults files.old; keeper = K.faults keeper.old })
        (record { tables = session.new; files = F.faults files.new; keeper = K.faults keeper.new })
        (T.history talk.old) (T.history talk.new) result }
    ensures kept { K.sound keeper.new → K.tables keeper.old ≡ Some session.old → K.tables keeper.new ≡ Some session.new }
    ensures sound { K.sound keeper.new → K.sound keeper.old }
    ensures same_files { F.look_up files.new ≡ F.look_up files.old }
{
    let ready = match ready_line(alloc, session.sizes()) {
        Ok(ready) => ready,
        Err(_) => return Status::Memory,
    };
    let mut line = match Vec::with_capacity(alloc, KEPT_BYTES) {
        Ok(line) => line,
        Err(_) => return Status::Memory,
    };
    if let Err(status) = put(talk, ready.as_slice()) {
        return status;
    }
    talk_on(alloc, session, &mut line, files, talk, keeper)
}
