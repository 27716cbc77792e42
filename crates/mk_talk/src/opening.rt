// The first line of a session.
ghost use Rattle.std.specs.Prelude.{◌≡◌, IfOk};
ghost use Rattle.mk_talk.specs.Frames.{ready_line};

use mk_outside::Memory;
use mk_session::Sizes;
use mk_text::put_number;
use std::alloc::Global;

// The line that says what is held.
pub fn ready_line(alloc: Global, sizes: Sizes) -> Result<Vec<u8>, Memory>
    ensures { IfOk result (λ line. line.items ≡ ready_line sizes) }
{
    let mut line = Vec::from_slice(alloc, b"ready records ")?;
    put_number(alloc, &mut line, sizes.records as u64)?;
    line.extend_from_slice(b" queries ")?;
    put_number(alloc, &mut line, sizes.queries as u64)?;
    line.extend_from_slice(b" cursors ")?;
    put_number(alloc, &mut line, sizes.cursors as u64)?;
    line.extend_from_slice(b" next ")?;
    put_number(alloc, &mut line, u64::from(sizes.next_record))?;
    line.extend_from_slice(b" ")?;
    put_number(alloc, &mut line, u64::from(sizes.next_cursor))?;
    line.extend_from_slice(b"\n")?;
    Ok(line)
}
