// Frames, written in front of the answer that they hold.
ghost use Rattle.std.specs.Prelude.{◌≡◌, ◌≤◌, ◌+◌, ◌++◌, IfOk, drop, length};
ghost use Rattle.mk_talk.specs.Frames.{frame};
ghost use Rattle.mk_talk.specs.Answers.{how_ended, how_ended_text};

use itoa::Buffer;
use mk_outside::Memory;
use mk_session::Ended;
use std::alloc::Global;

// Room for the longest head of a frame: 7 bytes, 20 digits and 9 bytes more.
const HEAD: usize = 40;

// The room for a head, behind which an answer is appended.
pub fn head_room(alloc: Global) -> Result<Vec<u8>, Memory>
    ensures { IfOk result (λ room. length room.items ≡ 40) }
{
    Vec::from_slice(alloc, &[b' '; HEAD])
}

// Writes the head of the frame in front of the answer behind the room. The frame begins there.
pub fn put_head(bytes: &mut Vec<u8>, ended: Ended) -> usize
    requires { 40 ≤ length bytes.old.items }
    ensures frame { drop result bytes.new.items ≡ frame (how_ended ended) (drop 40 bytes.old.items) }
    ensures within { result ≤ length bytes.new.items }
{
    let size = bytes.as_slice().len() - HEAD;
    let mut digits = Buffer::new();
    let at = put_before(bytes, HEAD, ended_text(ended));
    let at = put_before(bytes, at, digits.format(size).as_bytes());
    put_before(bytes, at, b"answer ")
}

fn ended_text(ended: Ended) -> &'static [u8]
    ensures text { result.now ≡ how_ended_text ended }
    ensures short { length result.now ≤ 9 }
{
    match ended {
        Ended::Done => b" done\n",
        Ended::Refused => b" refused\n",
    }
}

// Writes a piece in front of a place, and gives the place where it begins.
fn put_before(bytes: &mut Vec<u8>, end: usize, piece: &[u8]) -> usize
    requires room { length piece.now ≤ end }
    requires within { end ≤ length bytes.old.items }
    ensures start { result + length piece.now ≡ end }
    ensures written { drop result bytes.new.items ≡ piece.now ++ drop end bytes.old.items }
    ensures size { length bytes.new.items ≡ length bytes.old.items }
{
    let start = end - piece.len();
    bytes[start..end].copy_from_slice(piece);
    start
}
