// One order, with its answer written.
ghost use Rattle.std.specs.Prelude.{◌≡◌, ◌<◌, ◌∷◌, [], Some};
ghost use Rattle.mk_session.specs.Run.{Misses};
ghost use Rattle.mk_session.specs.Given.{CanAskOrder};
ghost use Rattle.mk_session.specs.Running.{IsUnread};
ghost use Rattle.mk_found.specs.Findings.{MissesAt};
ghost use Rattle.mk_session.specs.Stepping.{IsStepped, StepCounts, is_refused_end};
ghost use Rattle.mk_session.specs.Turns.{Turns};
ghost use Rattle.mk_session.specs.Step.{Reaches};

use crate::session::Session;
use crate::{Command, Ended, Status, StepFail};
use mk_model::Steps;
use mk_outside::{Files, Keeper, PutFail, Sink};
use std::alloc::Global;
use std::marker::Brand;
use std::sync::ledger::{Blank, Ledger};

/// Does an order and writes its answer by one put. Says whether it was refused.
pub fn do_order<F: Files, W: Sink, K: Keeper>(
    alloc: Global,
    session: &mut Session,
    order: &Option<Command>,
    files: &mut F,
    output: &mut W,
    keeper: &mut K,
) -> Result<bool, Status>
    requires { CanAskOrder order.now }
    ensures turns { Turns (F.look_up files.old) session.old session.new (order.now ∷ []) (W.so_far output.old) (W.so_far output.new)
        (record { files = F.faults files.old; output = W.faults output.old; keeper = K.faults keeper.old })
        (record { files = F.faults files.new; output = W.faults output.new; keeper = K.faults keeper.new }) result }
    ensures kept { K.sound keeper.new → K.tables keeper.old ≡ Some session.old → K.tables keeper.new ≡ Some session.new }
    ensures sound { K.sound keeper.new → K.sound keeper.old }
    ensures same_files { F.look_up files.new ≡ F.look_up files.old }
    ensures missed { Misses (F.look_up files.old) session.old (order.now ∷ []) (F.absences files.old) (F.absences files.new) }
    ensures unread { IsUnread (W.so_far output.old) (W.so_far output.new) result }
{
    let mut answer = Vec::new(alloc);
    let counters = Blank::new(1);
    let ended = match step_order::<F, K, Brand>(
        alloc,
        session,
        order,
        files,
        keeper,
        &mut answer,
        counters,
    ) {
        Ok(ended) => ended,
        Err(fail) => return Err(Status::from(fail)),
    };
    match output.put(answer.as_slice()) {
        Ok(()) => Ok(is_refused(ended)),
        Err(PutFail::Failed) => Err(Status::Write),
        Err(PutFail::Memory) => Err(Status::Memory),
    }
}

fn is_refused(ended: Ended) -> bool
    ensures { result ≡ is_refused_end ended }
{
    match ended {
        Ended::Done => false,
        Ended::Refused => true,
    }
}

/// Does an order and appends its answer: a command is a step, which counts on a ledger of its own,
/// and what is no command is refused. After a failure the session and the answer are as before.
pub fn step_order<F: Files, K: Keeper, L: Ledger>(
    alloc: Global,
    session: &mut Session,
    order: &Option<Command>,
    files: &mut F,
    keeper: &mut K,
    answer: &mut Vec<u8>,
    blank: Blank,
) -> Result<Ended, StepFail>
    requires asks { CanAskOrder order.now }
    requires name { blank.name ≡ L.name }
    requires parts { blank.parts ≡ L.parts }
    requires one { 0 < L.parts }
    ensures stepped { IsStepped (F.look_up files.old) session.old session.new order.now answer.old.items answer.new.items result }
    ensures kept { K.sound keeper.new → K.tables keeper.old ≡ Some session.old → K.tables keeper.new ≡ Some session.new }
    ensures sound { K.sound keeper.new → K.sound keeper.old }
    ensures counted { StepCounts (F.look_up files.old) session.old order.now (F.faults files.old) (F.faults files.new) (K.faults keeper.old) (K.faults keeper.new) result }
    ensures same_files { F.look_up files.new ≡ F.look_up files.old }
    ensures missed { MissesAt (F.look_up files.old) (Reaches (F.look_up files.old) session.old order.now) (F.absences files.old) (F.absences files.new) }
{
    let mut steps = Steps::<L>::new(blank);
    match order {
        Some(command) => session.step(alloc, files, keeper, command, answer, &mut steps),
        None => {
            answer.extend_from_slice(b"refused 1 command\n")?;
            Ok(Ended::Refused)
        }
    }
}
