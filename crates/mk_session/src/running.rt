// A whole run.
ghost use Rattle.std.specs.Prelude.{◌≡◌, ◌||◌, ℕ, List, Option, Some, None, IfOk, ⊤, map};
ghost use Rattle.std.specs.String.{string_bytes};
ghost use Rattle.mk_text.specs.Spans.{parts, AreWithin};
ghost use Rattle.mk_words.specs.Commands.{kind_of_words};
ghost use Rattle.mk_session.specs.Run.{ending_if};
ghost use Rattle.mk_found.specs.Files.{Look};
ghost use Rattle.mk_session.specs.Headline.{Headline};
ghost use Rattle.mk_session.specs.Outcomes.{IsUntouched};
ghost use Rattle.mk_session.specs.Orders.{Order, Orders, orders_of, orders_of_line};
ghost use Rattle.mk_session.specs.Run.{Misses, bad_store_text, kind_text};
ghost use Rattle.mk_session.specs.Given.{CanAskWork, orders_of_work};
ghost use Rattle.mk_session.specs.Running.{IsUnread, IsUnreadGiven, IsUnreadWork, Leaves, Opens, SaysLine};
ghost use Rattle.mk_session.specs.Turns.{Turns};

use crate::orders::do_order;
use crate::reading::given_by;
use crate::session::Session;
use crate::work::{Given, Work};
use crate::{BeginFail, LineKind, RowKind, Status};
use mk_outside::{Files, Keeper, Memory, PutFail, Sink, Source};
use mk_text::{Span, put_number};
use mk_words::command_of_line;
use std::alloc::Global;

/// Does the command of the words, or those of the input, and writes the answers.
pub fn top<F: Files, S: Source, W: Sink, K: Keeper>(
    alloc: Global,
    words: &[String],
    files: &mut F,
    input: &mut S,
    output: &mut W,
    keeper: &mut K,
) -> Status
    ensures headline { Headline (K.sound keeper.new) (map string_bytes words.now)
        (record {
          files = F.look_up files.old;
          input = S.left input.old;
          output = W.so_far output.old;
          tables = K.tables keeper.old;
          faults = record { files = F.faults files.old; output = W.faults output.old; keeper = K.faults keeper.old };
          input_faults = S.faults input.old;
          absences = F.absences files.old;
        })
        (record {
          files = F.look_up files.new;
          input = S.left input.new;
          output = W.so_far output.new;
          tables = K.tables keeper.new;
          faults = record { files = F.faults files.new; output = W.faults output.new; keeper = K.faults keeper.new };
          input_faults = S.faults input.new;
          absences = F.absences files.new;
        }) result }
    // Where the one command of the words can't read a file, nothing is written, told or not.
    ensures unread { IsUntouched (kind_of_words (map string_bytes words.now)) (W.so_far output.old) (W.so_far output.new) result }
    ensures sound { K.sound keeper.new → K.sound keeper.old }
    ensures same_files { F.look_up files.new ≡ F.look_up files.old }
{
    match given_by(alloc, words, input) {
        Err(status) => status,
        Ok(Given::NoCommand) => say(output, b"words not understood\n", Status::Words),
        Ok(Given::TooMuch) => say(output, b"script too long\n", Status::ScriptLong),
        Ok(Given::Orders(work)) => do_work(alloc, &work, files, output, keeper),
    }
}

fn ending_of(refused: bool) -> Status
    ensures { result ≡ ending_if refused }
{
    if refused {
        Status::Refused
    } else {
        Status::Done
    }
}

fn either(before: bool, here: bool) -> bool
    ensures { result ≡ (before || here) }
{
    before || here
}

// Writes the one line of a run.
fn say<W: Sink>(output: &mut W, line: &[u8], status: Status) -> Status
    ensures { SaysLine (W.so_far output.old) (W.so_far output.new) (W.faults output.old) (W.faults output.new) line.now status result }
{
    match output.put(line) {
        Ok(()) => status,
        Err(PutFail::Failed) => Status::Write,
        Err(PutFail::Memory) => Status::Memory,
    }
}

// Opens the store and does the work.
fn do_work<F: Files, W: Sink, K: Keeper>(
    alloc: Global,
    work: &Work,
    files: &mut F,
    output: &mut W,
    keeper: &mut K,
) -> Status
    requires { CanAskWork work.now }
    ensures leaves { Leaves (K.sound keeper.new) (F.look_up files.old) (Orders (orders_of_work work.now)) (K.tables keeper.old) (K.tables keeper.new) (W.so_far output.old) (W.so_far output.new)
        (record { files = F.faults files.old; output = W.faults output.old; keeper = K.faults keeper.old })
        (record { files = F.faults files.new; output = W.faults output.new; keeper = K.faults keeper.new }) (F.absences files.old) (F.absences files.new) result }
    ensures sound { K.sound keeper.new → K.sound keeper.old }
    ensures same_files { F.look_up files.new ≡ F.look_up files.old }
    ensures unread { IsUnreadGiven work.now (W.so_far output.old) (W.so_far output.new) result }
{
    match open(alloc, output, keeper) {
        Err(status) => status,
        Ok(mut session) => match go(alloc, &mut session, work, files, output, keeper) {
            Err(status) => status,
            Ok(refused) => ending_of(refused),
        },
    }
}

// Loads the store and reads its rows, or ends the run.
fn open<W: Sink, K: Keeper>(
    alloc: Global,
    output: &mut W,
    keeper: &mut K,
) -> Result<Session, Status>
    ensures opens { (files : Option Look) (count missed : ℕ) (orders : List Order) → Opens (K.sound keeper.new) files orders (K.tables keeper.old) (K.tables keeper.new) (W.so_far output.old) (W.so_far output.new)
        (record { files = count; output = W.faults output.old; keeper = K.faults keeper.old })
        (record { files = count; output = W.faults output.new; keeper = K.faults keeper.new }) missed result }
    ensures sound { K.sound keeper.new → K.sound keeper.old }
    ensures unread { IsUnread (W.so_far output.old) (W.so_far output.new) result }
{
    match Session::begin(alloc, keeper) {
        Ok(session) => Ok(session),
        Err(BeginFail::Store) => Err(Status::Store),
        Err(BeginFail::Memory) => Err(Status::Memory),
        Err(BeginFail::BadStore { kind, number }) => match bad_store_line(alloc, kind, number) {
            Err(_) => Err(Status::Memory),
            Ok(line) => Err(say(output, line.as_slice(), Status::BadStore)),
        },
    }
}

/// The line of a store whose row doesn't read.
pub fn bad_store_line(alloc: Global, kind: RowKind, number: u32) -> Result<Vec<u8>, Memory>
    ensures { IfOk result (λ line. line.items ≡ bad_store_text kind number) }
{
    let mut line = Vec::from_slice(alloc, b"bad store ")?;
    line.extend_from_slice(kind_word(kind))?;
    put_number(alloc, &mut line, u64::from(number))?;
    line.extend_from_slice(b"\n")?;
    Ok(line)
}

// The word for a kind of row, and a blank.
fn kind_word(kind: RowKind) -> &'static [u8]
    ensures { result.now ≡ kind_text kind }
{
    match kind {
        RowKind::Records => b"record ",
        RowKind::Queries => b"query ",
        RowKind::Cursors => b"cursor ",
    }
}

// Does the work on the session. Says whether an order was refused.
fn go<F: Files, W: Sink, K: Keeper>(
    alloc: Global,
    session: &mut Session,
    work: &Work,
    files: &mut F,
    output: &mut W,
    keeper: &mut K,
) -> Result<bool, Status>
    requires { CanAskWork work.now }
    ensures turns { Turns (F.look_up files.old) session.old session.new (orders_of_work work.now) (W.so_far output.old) (W.so_far output.new)
        (record { files = F.faults files.old; output = W.faults output.old; keeper = K.faults keeper.old })
        (record { files = F.faults files.new; output = W.faults output.new; keeper = K.faults keeper.new }) result }
    ensures kept { K.sound keeper.new → K.tables keeper.old ≡ Some session.old → K.tables keeper.new ≡ Some session.new }
    ensures sound { K.sound keeper.new → K.sound keeper.old }
    ensures same_files { F.look_up files.new ≡ F.look_up files.old }
    ensures missed { Misses (F.look_up files.old) session.old (orders_of_work work.now) (F.absences files.old) (F.absences files.new) }
    ensures unread { IsUnreadWork work.now (W.so_far output.old) (W.so_far output.new) result }
{
    match work {
        Work::One(order) => do_order(alloc, session, order, files, output, keeper),
        Work::Script(text, lines) => do_lines(
            alloc,
            session,
            text.as_slice(),
            lines.as_slice(),
            files,
            output,
            keeper,
        ),
    }
}

// Does what the lines ask for, in order. Says whether an order was refused.
fn do_lines<F: Files, W: Sink, K: Keeper>(
    alloc: Global,
    session: &mut Session,
    text: &[u8],
    lines: &[Span],
    files: &mut F,
    output: &mut W,
    keeper: &mut K,
) -> Result<bool, Status>
    requires { AreWithin text.now lines.now }
    ensures turns { Turns (F.look_up files.old) session.old session.new (orders_of (parts text.now lines.now)) (W.so_far output.old) (W.so_far output.new)
        (record { files = F.faults files.old; output = W.faults output.old; keeper = K.faults keeper.old })
        (record { files = F.faults files.new; output = W.faults output.new; keeper = K.faults keeper.new }) result }
    ensures kept { K.sound keeper.new → K.tables keeper.old ≡ Some session.old → K.tables keeper.new ≡ Some session.new }
    ensures sound { K.sound keeper.new → K.sound keeper.old }
    ensures same_files { F.look_up files.new ≡ F.look_up files.old }
    ensures missed { Misses (F.look_up files.old) session.old (orders_of (parts text.now lines.now)) (F.absences files.old) (F.absences files.new) }
{
    let mut refused = false;
    for span in lines {
        let line = &text[span.from..span.to];
        match do_line(alloc, session, line, files, output, keeper) {
            Err(status) => return Err(status),
            Ok(here) => refused = either(refused, here),
        }
    }
    Ok(refused)
}

// Does what the line asks for.
fn do_line<F: Files, W: Sink, K: Keeper>(
    alloc: Global,
    session: &mut Session,
    line: &[u8],
    files: &mut F,
    output: &mut W,
    keeper: &mut K,
) -> Result<bool, Status>
    ensures turns { Turns (F.look_up files.old) session.old session.new (orders_of_line line.now) (W.so_far output.old) (W.so_far output.new)
        (record { files = F.faults files.old; output = W.faults output.old; keeper = K.faults keeper.old })
        (record { files = F.faults files.new; output = W.faults output.new; keeper = K.faults keeper.new }) result }
    ensures kept { K.sound keeper.new → K.tables keeper.old ≡ Some session.old → K.tables keeper.new ≡ Some session.new }
    ensures sound { K.sound keeper.new → K.sound keeper.old }
    ensures same_files { F.look_up files.new ≡ F.look_up files.old }
    ensures missed { Misses (F.look_up files.old) session.old (orders_of_line line.now) (F.absences files.old) (F.absences files.new) }
{
    match command_of_line(alloc, line) {
        Err(_) => Err(Status::Memory),
        Ok(LineKind::Blank) => Ok(false),
        Ok(LineKind::NoCommand) => { do_order(alloc, session, &None, files, output, keeper) }
        Ok(LineKind::Is(command)) => {
            let order = Some(command);
            do_order(alloc, session, &order, files, output, keeper)
        }
    }
}
