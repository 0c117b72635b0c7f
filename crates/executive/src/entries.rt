// One task's entry: what departing, entering, beginning and being due make of it.
ghost use Rattle.std.specs.Prelude.{◌≡◌};
ghost use Rattle.executive.specs.Entries.{scheduled, with_state, as_dormant, begun, aimed, risen, due_at};
ghost use Rattle.executive.specs.Decisions.{gone_as, change_for};

use crate::decisions::{How, Leave};
use crate::{Millis, Request, State, Task, states};
use records::TaskNo;

// One task's entry, lent: its state and its time are set, and nothing else is.
pub(crate) fn set_state(task: &mut Task, state: State, start: Millis)
    ensures { task.new ≡ scheduled state start task.old }
{
    task.state = state;
    task.start = start;
}

// The same of an entry by value: a copy of it is lent and handed back.
pub(crate) fn reschedule(task: Task, state: State, start: Millis) -> Task
    ensures { result ≡ scheduled state start task }
{
    let mut entry = task;
    set_state(&mut entry, state, start);
    entry
}

// A task's entry in another state.
pub fn with_state(e: Task, s: State) -> Task
    ensures { result ≡ with_state s e }
{
    let start = e.start;
    reschedule(e, s, start)
}

// The entry of a task whose run has ended.
pub(crate) fn as_dormant(e: Task) -> Task
    ensures { result ≡ as_dormant e }
{
    Task {
        own: e.own,
        state: State::Dormant,
        priority: 0,
        argument: 0,
        start: Millis(0),
        end_waiter: TaskNo(0),
    }
}

// The entry as a request's run begins.
pub(crate) fn begin(e: Task, r: Request, now: Millis) -> Task
    ensures { result ≡ begun r now e }
{
    let end_waiter = r.end_waiter;
    Task {
        own: e.own,
        state: State::Ready,
        priority: r.priority,
        argument: r.argument,
        start: now,
        end_waiter,
    }
}

// A due task's scheduled start is the time aimed at; any other keeps its own.
pub(crate) fn aim(s: State, start: Millis) -> Millis
    ensures { result ≡ aimed s start }
{
    if states::is_of(s, states::DUE) {
        return states::time_of(s);
    }
    start
}

// The entry of a task whose wait is over.
pub(crate) fn rise(e: Task) -> Task
    ensures { result ≡ risen e }
{
    let s = e.state;
    let old = e.start;
    let start = aim(s, old);
    reschedule(e, State::Ready, start)
}

// The entry of a task that is due to restart; its run is over.
pub(crate) fn due(e: Task, at: Millis) -> Task
    ensures { result ≡ due_at at e }
{
    let start = e.start;
    Task {
        own: e.own,
        state: State::Due(at),
        priority: e.priority,
        argument: e.argument,
        start,
        end_waiter: TaskNo(0),
    }
}

// The entry of a task as it leaves; one that stays keeps it.
pub fn gone(e: Task, how: Leave) -> Task
    ensures { result ≡ gone_as how e }
{
    match how {
        Leave::Stays => e,
        Leave::Sleeps => as_dormant(e),
        Leave::DueAt(at) => due(e, at),
        Leave::As(s) => with_state(e, s),
    }
}

// The entry of a task as it enters.
pub fn entering(e: Task, how: How, q: Request, now: Millis) -> Task
    ensures { result ≡ change_for q now how e }
{
    match how {
        How::Woken => with_state(e, State::Ready),
        How::Risen => rise(e),
        How::Begun => begin(e, q, now),
    }
}
