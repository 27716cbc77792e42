// A piece that is put, or ends the run.
ghost use Rattle.mk_talk.specs.Speaking.{PutOrEnds};

use crate::talk::Talk;
use mk_outside::PutFail;
use mk_session::Status;

// Puts a piece, or says how the run ends.
pub fn put<T: Talk>(talk: &mut T, piece: &[u8]) -> Result<(), Status>
    ensures { PutOrEnds (T.history talk.old) (T.history talk.new) piece.now result }
{
    match talk.put(piece) {
        Ok(()) => Ok(()),
        Err(PutFail::Failed) => Err(Status::Write),
        Err(PutFail::Memory) => Err(Status::Memory),
    }
}
