// The loop: a piece is read, and each line that it ends is answered before more is read.
ghost use Rattle.std.specs.Prelude.{◌≡◌, ◌≤◌, ◌∷◌, [], Some, OnOk};
ghost use Rattle.std.specs.Vec.{vec_capacity};
ghost use Rattle.mk_talk.specs.Cutting.{cut_from, left_from};
ghost use Rattle.mk_talk.specs.Lines.{orders_of_all, orders_of_raw};
ghost use Rattle.mk_talk.specs.Speaking.{EndsTalk, Goes, GoesOn};

use crate::answering::answer_piece;
use crate::cutting::keep_byte;
use crate::talk::Talk;
use mk_outside::{Failed, Files, Keeper};
use mk_session::{Session, Status};
use std::alloc::Global;

// How many bytes are asked for at once.
const CHUNK: usize = 4_096;

// Answers each line that comes, to the end of the input.
pub fn talk_on<F: Files, T: Talk, K: Keeper>(
    alloc: Global,
    session: &mut Session,
    line: &mut Vec<u8>,
    files: &mut F,
    talk: &mut T,
    keeper: &mut K,
) -> Status
    requires room { 65537 ≤ vec_capacity line.old }
    requires empty { line.old.items ≡ [] }
    ensures goes_on { GoesOn (F.look_up files.old)
        (record { tables = session.old; files = F.faults files.old; keeper = K.faults keeper.old })
        (record { tables = session.new; files = F.faults files.new; keeper = K.faults keeper.new })
        (T.history talk.old) (T.history talk.new) result }
    ensures kept { K.sound keeper.new → K.tables keeper.old ≡ Some session.old → K.tables keeper.new ≡ Some session.new }
    ensures sound { K.sound keeper.new → K.sound keeper.old }
    ensures same_files { F.look_up files.new ≡ F.look_up files.old }
{
    let mut chunk = [0u8; CHUNK];
    for _count in 0..u64::MAX {
        match talk.read(&mut chunk) {
            Err(Failed) => return Status::Read,
            Ok(0) => return end_talk(alloc, session, line.as_slice(), files, talk, keeper),
            Ok(count) => {
                let piece = &chunk[..count];
                if let Err(status) = take_piece(alloc, session, line, piece, files, talk, keeper) {
                    return status;
                }
            }
        }
    }
    Status::Read
}

// Answers the last line, where it has no LF.
fn end_talk<F: Files, T: Talk, K: Keeper>(
    alloc: Global,
    session: &mut Session,
    line: &[u8],
    files: &mut F,
    talk: &mut T,
    keeper: &mut K,
) -> Status
    ensures ended { EndsTalk (F.look_up files.old)
        (record { tables = session.old; files = F.faults files.old; keeper = K.faults keeper.old })
        (record { tables = session.new; files = F.faults files.new; keeper = K.faults keeper.new })
        (orders_of_raw line.now) (T.history talk.old) (T.history talk.new) result }
    ensures kept { K.sound keeper.new → K.tables keeper.old ≡ Some session.old → K.tables keeper.new ≡ Some session.new }
    ensures sound { K.sound keeper.new → K.sound keeper.old }
    ensures same_files { F.look_up files.new ≡ F.look_up files.old }
{
    match answer_piece(alloc, session, line, files, talk, keeper) {
        Ok(()) => Status::Done,
        Err(status) => status,
    }
}

// Answers each line that the piece ends, and keeps what stands behind the last one.
fn take_piece<F: Files, T: Talk, K: Keeper>(
    alloc: Global,
    session: &mut Session,
    line: &mut Vec<u8>,
    piece: &[u8],
    files: &mut F,
    talk: &mut T,
    keeper: &mut K,
) -> Result<(), Status>
    requires room { 65537 ≤ vec_capacity line.old }
    ensures goes { Goes (F.look_up files.old)
        (record { tables = session.old; files = F.faults files.old; keeper = K.faults keeper.old })
        (record { tables = session.new; files = F.faults files.new; keeper = K.faults keeper.new })
        (orders_of_all (cut_from 65536 line.old.items piece.now)) (T.history talk.old) (T.history talk.new) result }
    ensures left { OnOk result (line.new.items ≡ left_from 65536 line.old.items piece.now) }
    ensures room { 65537 ≤ vec_capacity line.new }
    ensures kept { K.sound keeper.new → K.tables keeper.old ≡ Some session.old → K.tables keeper.new ≡ Some session.new }
    ensures sound { K.sound keeper.new → K.sound keeper.old }
    ensures same_files { F.look_up files.new ≡ F.look_up files.old }
{
    for byte in piece {
        if let Err(status) = take_byte(alloc, session, line, *byte, files, talk, keeper) {
            return Err(status);
        }
    }
    Ok(())
}

// Answers the line that ends, or keeps one byte more of it.
fn take_byte<F: Files, T: Talk, K: Keeper>(
    alloc: Global,
    session: &mut Session,
    line: &mut Vec<u8>,
    byte: u8,
    files: &mut F,
    talk: &mut T,
    keeper: &mut K,
) -> Result<(), Status>
    requires room { 65537 ≤ vec_capacity line.old }
    ensures goes { Goes (F.look_up files.old)
        (record { tables = session.old; files = F.faults files.old; keeper = K.faults keeper.old })
        (record { tables = session.new; files = F.faults files.new; keeper = K.faults keeper.new })
        (orders_of_all (cut_from 65536 line.old.items (byte ∷ []))) (T.history talk.old) (T.history talk.new) result }
    ensures left { OnOk result (line.new.items ≡ left_from 65536 line.old.items (byte ∷ [])) }
    ensures room { 65537 ≤ vec_capacity line.new }
    ensures kept { K.sound keeper.new → K.tables keeper.old ≡ Some session.old → K.tables keeper.new ≡ Some session.new }
    ensures sound { K.sound keeper.new → K.sound keeper.old }
    ensures same_files { F.look_up files.new ≡ F.look_up files.old }
{
    if byte != b'\n' {
        keep_byte(line, byte);
        return Ok(());
    }
    let answered = answer_piece(alloc, session, line.as_slice(), files, talk, keeper);
    line.clear();
    answered
}
