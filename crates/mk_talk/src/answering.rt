// One line, one step, one frame.
ghost use Rattle.std.specs.Prelude.{◌≡◌, ◌∷◌, [], Some};
ghost use Rattle.mk_session.specs.Given.{CanAskOrder};
ghost use Rattle.mk_session.specs.Orders.{orders_of_line};
ghost use Rattle.mk_talk.specs.Lines.{orders_of_raw};
ghost use Rattle.mk_talk.specs.Speaking.{Goes};

use crate::cutting::{LINE_BYTES, line_of};
use crate::frames::{head_room, put_head};
use crate::puts::put;
use crate::talk::Talk;
use mk_outside::{Files, Keeper};
use mk_session::{Command, LineKind, Session, Status, StepFail, command_of_line, step_order};
use mk_text::is_blank;
use std::alloc::Global;
use std::marker::Brand;
use std::sync::ledger::Blank;

// The frame where memory was wanting before anything changed.
const MEMORY: &[u8] = b"answer 0 memory\n";

// The frame where a file couldn't be read.
const UNREAD: &[u8] = b"answer 0 unread\n";

// Does what a piece between two LF asks for, and puts its frame.
pub fn answer_piece<F: Files, T: Talk, K: Keeper>(
    alloc: Global,
    session: &mut Session,
    piece: &[u8],
    files: &mut F,
    talk: &mut T,
    keeper: &mut K,
) -> Result<(), Status>
    ensures goes { Goes (F.look_up files.old)
        (record { tables = session.old; files = F.faults files.old; keeper = K.faults keeper.old })
        (record { tables = session.new; files = F.faults files.new; keeper = K.faults keeper.new })
        (orders_of_raw piece.now) (T.history talk.old) (T.history talk.new) result }
    ensures kept { K.sound keeper.new → K.tables keeper.old ≡ Some session.old → K.tables keeper.new ≡ Some session.new }
    ensures sound { K.sound keeper.new → K.sound keeper.old }
    ensures same_files { F.look_up files.new ≡ F.look_up files.old }
{
    if piece.len() > LINE_BYTES {
        return answer_order(alloc, session, &None, files, talk, keeper);
    }
    answer_line(alloc, session, line_of(piece), files, talk, keeper)
}

// Does what a line asks for, and puts its frame. A blank line asks for nothing.
fn answer_line<F: Files, T: Talk, K: Keeper>(
    alloc: Global,
    session: &mut Session,
    line: &[u8],
    files: &mut F,
    talk: &mut T,
    keeper: &mut K,
) -> Result<(), Status>
    ensures goes { Goes (F.look_up files.old)
        (record { tables = session.old; files = F.faults files.old; keeper = K.faults keeper.old })
        (record { tables = session.new; files = F.faults files.new; keeper = K.faults keeper.new })
        (orders_of_line line.now) (T.history talk.old) (T.history talk.new) result }
    ensures kept { K.sound keeper.new → K.tables keeper.old ≡ Some session.old → K.tables keeper.new ≡ Some session.new }
    ensures sound { K.sound keeper.new → K.sound keeper.old }
    ensures same_files { F.look_up files.new ≡ F.look_up files.old }
{
    if is_blank(line) {
        return Ok(());
    }
    match command_of_line(alloc, line) {
        Err(_) => put(talk, MEMORY),
        Ok(LineKind::Blank) => Ok(()),
        Ok(LineKind::NoCommand) => answer_order(alloc, session, &None, files, talk, keeper),
        Ok(LineKind::Is(command)) => {
            let order = Some(command);
            answer_order(alloc, session, &order, files, talk, keeper)
        }
    }
}

// Does an order and puts its frame. Nothing between the commit and the put wants memory.
fn answer_order<F: Files, T: Talk, K: Keeper>(
    alloc: Global,
    session: &mut Session,
    order: &Option<Command>,
    files: &mut F,
    talk: &mut T,
    keeper: &mut K,
) -> Result<(), Status>
    requires { CanAskOrder order.now }
    ensures goes { Goes (F.look_up files.old)
        (record { tables = session.old; files = F.faults files.old; keeper = K.faults keeper.old })
        (record { tables = session.new; files = F.faults files.new; keeper = K.faults keeper.new })
        (order.now ∷ []) (T.history talk.old) (T.history talk.new) result }
    ensures kept { K.sound keeper.new → K.tables keeper.old ≡ Some session.old → K.tables keeper.new ≡ Some session.new }
    ensures sound { K.sound keeper.new → K.sound keeper.old }
    ensures same_files { F.look_up files.new ≡ F.look_up files.old }
{
    let mut answer = match head_room(alloc) {
        Ok(room) => room,
        Err(_) => return put(talk, MEMORY),
    };
    let counters = Blank::new(1);
    match step_order::<F, K, Brand>(alloc, session, order, files, keeper, &mut answer, counters) {
        Ok(ended) => {
            let from = put_head(&mut answer, ended);
            put(talk, &answer.as_slice()[from..])
        }
        Err(StepFail::Read) => put(talk, UNREAD),
        Err(StepFail::Memory) => put(talk, MEMORY),
        Err(StepFail::Store) => Err(Status::Store),
    }
}
