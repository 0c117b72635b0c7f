// What a step decides, from the tasks, the rest and the caller alone: of any record's bytes, and of a call that was
// read, by its kind's function. No queue is looked at.
ghost use Rattle.std.specs.Prelude.{◌≡◌};
ghost use Rattle.executive.specs.Decisions.{Judgeable};
ghost use Rattle.executive.specs.Sheet.{decided, decision_of};
ghost use Rattle.executive.specs.Refusals.{Idles};
ghost use Rattle.executive.specs.Deciding.{caller_right, decision_in, decision_for, settled_for};

use crate::decisions::Decision;
use crate::{
    Rest, Task, calls, check, decisions, flags, messages, places, refusals, starts, states,
    subprograms,
};
use records::{Call, Refusal, TaskNo, kinds, reading};

// What is decided of a record, and the rest as it is after that.
#[derive(Clone, Copy)]
pub struct Settled {
    pub decision: Decision,
    pub rest: Rest,
}

// 5: a call, not a tick, and nobody is active.
pub fn nobody_active(c: TaskNo, call: Call) -> bool
    ensures { Idles c call result }
{
    let Call::Tick = call else {
        return c.0 == 0;
    };
    false
}

// Each kind's own decision, from the parts of the table that it looks at.
fn by_kind(tasks: [Task; 16], rest: Rest, c: TaskNo, call: Call) -> Decision
    requires { Judgeable tasks rest c }
    ensures { result ≡ decided tasks rest c call }
{
    let now = rest.clock;
    let flags = rest.flags;
    match call {
        Call::Terminate => {
            let holding = subprograms::holds_any(&rest.subs, c);
            let requests = &rest.pool[..rest.queued as usize];
            calls::terminate(&tasks, requests, c, holding)
        }
        Call::Restart { parameter, count } => {
            let e = places::task_at(tasks, c);
            let holding = subprograms::holds_any(&rest.subs, c);
            calls::restart(e, now, c, holding, parameter, count)
        }
        Call::Pause { unit, count } => calls::pause(now, unit, count),
        Call::CancelPause { task } => {
            let e = places::task_at(tasks, task);
            calls::cancel_pause(e, rest.count, task)
        }
        Call::StartIfDormant { option, task } => {
            let e = places::task_at(tasks, task);
            starts::start_if_dormant(e, rest.count, c, option, task)
        }
        Call::StartOrQueue {
            option,
            task,
            argument,
        } => {
            let e = places::task_at(tasks, task);
            starts::start_or_queue(e, rest.count, rest.queued, c, option, task, argument)
        }
        Call::Flag { operation, flag } => flags::flag(&tasks, flags, operation, flag),
        Call::Wait { mode, mask } => flags::wait(flags, mode, mask),
        Call::Alarm { unit, count, flag } => {
            let running = refusals::alarm_at(&rest.alarms, flag);
            flags::alarm(&tasks, running, now, flags, unit, count, flag)
        }
        Call::Tick => { calls::tick(&tasks, &rest.alarms, now, rest.granule, flags) }
        Call::Granule { .. } => decisions::no_call(),
        Call::Task { .. } => decisions::no_call(),
        Call::End => decisions::no_call(),
        Call::Enter { subprogram } => {
            let s = subprograms::sub_at(&rest.subs, subprogram);
            subprograms::enter(&tasks, s, c, subprogram)
        }
        Call::Exit { subprogram } => {
            let s = subprograms::sub_at(&rest.subs, subprogram);
            subprograms::exit(s, c, subprogram)
        }
        Call::Send { task, text } => {
            let e = places::task_at(tasks, task);
            let own = places::task_at(tasks, c);
            let state = e.state;
            let letters = &rest.messages[..rest.sent as usize];
            messages::send(state, own.priority, letters, rest.count, c, task, text)
        }
        Call::Receive { task } => {
            let letters = &rest.messages[..rest.sent as usize];
            messages::receive(letters, rest.count, c, task)
        }
    }
}

// A call's decision: 5 first, then its kind's.
fn decide_call(tasks: [Task; 16], rest: Rest, c: TaskNo, call: Call) -> Decision
    requires { Judgeable tasks rest c }
    ensures { result ≡ decision_of tasks rest c call }
{
    if nobody_active(c, call) {
        return decisions::refuse(Refusal::NobodyActive);
    }
    by_kind(tasks, rest, c, call)
}

// A record's decision: 3, 4 and 3, then its call's.
// It decides from tasks and a rest; the image's engine has its like, which decides from bytes, by its own contract.
fn decide_record(tasks: [Task; 16], rest: Rest, c: TaskNo, bytes: &[u8]) -> Decision
    requires { Judgeable tasks rest c }
    ensures { result ≡ decision_in tasks rest c bytes.now }
{
    if bytes.len() == 0 {
        return decisions::refuse(Refusal::WrongLength);
    }
    let kind = kinds::kind_of(bytes[0]);
    if kinds::is_call(kind) {
        return match reading::read(bytes) {
            Ok(call) => decide_call(tasks, rest, c, call),
            Err(why) => decisions::refuse(why),
        };
    }
    decisions::refuse(Refusal::UnknownKind)
}

// The caller is nobody or a ready task.
fn caller_right(tasks: [Task; 16], c: TaskNo) -> bool
    ensures { result ≡ caller_right tasks c }
{
    if c.0 == 0 {
        return true;
    }
    let e = places::task_at(tasks, c);
    let s = e.state;
    states::is_of(s, states::READY)
}

// What any engine asks: the decision of a record's bytes, with the tasks, the rest and the caller of its table,
// whatever they are. 1 where a rule is broken that is not the queue's, or where there is no such caller; else the first
// refusal; else 0, the marks of the answer and what is to be done.
pub fn decide(tasks: [Task; 16], rest: Rest, caller: TaskNo, bytes: &[u8]) -> Decision
    ensures { result ≡ decision_for tasks rest caller bytes.now }
{
    if !check::all_but_queue(tasks, rest) {
        return decisions::refuse(Refusal::NoTable);
    }
    if !caller_right(tasks, caller) {
        return decisions::refuse(Refusal::NoTable);
    }
    decide_record(tasks, rest, caller, bytes)
}

// The same for an engine that lets tasks leave and enter by itself: the decision, and the rest after it. What is
// refused keeps the rest.
pub fn settle(tasks: [Task; 16], rest: Rest, caller: TaskNo, bytes: &[u8]) -> Settled
    ensures { result ≡ settled_for tasks rest caller bytes.now }
{
    let decision = decide(tasks, rest, caller, bytes);
    if decision.number != 0 {
        return Settled { decision, rest };
    }
    let deed = decision.deed;
    let change = deed.change;
    let q = deed.request;
    let changed = rest.changed(change, q);
    let k = deed.empties;
    let after = changed.with_mail(k, messages::NO_MAIL);
    Settled {
        decision,
        rest: after,
    }
}
