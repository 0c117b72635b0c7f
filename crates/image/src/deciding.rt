// What a step decides of a record, on the lent bytes of an image: 3, 4 and 3, 5, then its kind's function.
ghost use Rattle.std.specs.Prelude.{◌≡◌, length};
ghost use Rattle.executive.specs.declared.Table.{Table};
ghost use Rattle.executive.specs.WellFormed.{WellFormed};
ghost use Rattle.executive.specs.Sheet.{decided, decision_of};
ghost use Rattle.executive.specs.Deciding.{decision_in};
ghost use Rattle.image.specs.Image.{image_length};
ghost use Rattle.image.specs.Laid.{Laid};
ghost use Rattle.image.specs.Waking.{Learned};

use crate::{IMAGE, letters, lines, runs, timing};
use executive::decisions::Decision;
use executive::{deciding, decisions};
use records::{Call, Refusal, TaskNo, kinds, reading};

// What the check has learned, and a decision need not look for again, as sets of a bit each: the tasks that wait until
// a time, those that wait for flags, the alarms that are running.
#[derive(Clone, Copy)]
pub(crate) struct Watched {
    pub(crate) timed: u16,
    pub(crate) flagged: u16,
    pub(crate) running: u32,
}

// Each kind's own decision.
fn by_kind(b: &[u8; IMAGE], c: TaskNo, call: Call, w: Watched) -> Decision
    ensures { (t : Table) → Laid b.now t → WellFormed t → Learned w.timed w.flagged w.running t
        → result ≡ decided t.tasks t.rest c call }
{
    match call {
        Call::Terminate => runs::terminate(b, c),
        Call::Restart { parameter, count } => runs::restart(b, c, parameter, count),
        Call::Pause { unit, count } => runs::pause(b, c, unit, count),
        Call::CancelPause { task } => runs::cancel_pause(b, c, task),
        Call::StartIfDormant { option, task } => runs::start_if_dormant(b, c, option, task),
        Call::StartOrQueue {
            option,
            task,
            argument,
        } => runs::start_or_queue(b, c, option, task, argument),
        Call::Flag { operation, flag } => timing::flag(b, operation, flag, w.flagged),
        Call::Wait { mode, mask } => runs::wait(b, c, mode, mask),
        Call::Alarm { unit, count, flag } => timing::alarm(b, unit, count, flag, w.flagged),
        Call::Tick => timing::tick(b, w),
        Call::Granule { .. } | Call::Task { .. } | Call::End => decisions::no_call(),
        Call::Enter { subprogram } => lines::enter(b, c, subprogram),
        Call::Exit { subprogram } => lines::exit(b, c, subprogram),
        Call::Send { task, text } => letters::send(b, c, task, text),
        Call::Receive { task } => letters::receive(b, c, task),
    }
}

// A call's decision: 5 first, then its kind's.
// As `decide`, of a call that was read.
fn decide_call(b: &[u8; IMAGE], c: TaskNo, call: Call, w: Watched) -> Decision
    ensures { (t : Table) → Laid b.now t → WellFormed t → Learned w.timed w.flagged w.running t
        → result ≡ decision_of t.tasks t.rest c call }
{
    if deciding::nobody_active(c, call) {
        return decisions::refuse(Refusal::NobodyActive);
    }
    by_kind(b, c, call, w)
}

// A record's decision: 3, 4 and 3, then its call's.
// It decides from an image's bytes, and the executive's own from tasks and a rest: two contracts.
pub(crate) fn decide(b: &[u8; IMAGE], c: TaskNo, call: &[u8], w: Watched) -> Decision
    ensures { (t : Table) → Laid b.now t → WellFormed t → Learned w.timed w.flagged w.running t
        → result ≡ decision_in t.tasks t.rest c call.now }
{
    if call.len() == 0 {
        return decisions::refuse(Refusal::WrongLength);
    }
    let kind = kinds::kind_of(call[0]);
    if kinds::is_call(kind) {
        return match reading::read(call) {
            Ok(asked) => decide_call(b, c, asked, w),
            Err(why) => decisions::refuse(why),
        };
    }
    decisions::refuse(Refusal::UnknownKind)
}
