// Why a task is not running: its state and, where it waits for another, the request or the run that names it, or the
// subprogram that the other holds.
ghost use Rattle.std.specs.Prelude.{◌≡◌, ◌≤◌, length, take};
ghost use Rattle.why.specs.Causes.{Sized, ahead_in, waiter_of, NamedAt, run_at, holder_at, missing, ready_cause, start_cause, end_cause, sub_cause, cause_of, target_at};

use crate::Cause;
use executive::{Request, State, Sub, Table, Task, places};
use records::{SubNo, TaskNo};

// How many in the queue stand ahead of a task.
fn ahead(queue: &[TaskNo], k: TaskNo) -> usize
    ensures { (result ≡ ahead_in k.0 queue.now) × (result ≤ length queue.now) }
{
    queue.iter().position(|x| k == *x).unwrap_or(queue.len())
}

// Whom a request names as the waiter for its start, or else for the end of the run that it begins.
fn waiter_of(q: Request, at_start: bool) -> TaskNo
    ensures { result.0 ≡ waiter_of at_start q }
{
    if at_start {
        return q.start_waiter;
    }
    q.end_waiter
}

// The place of the first request that names a task so.
fn named_at(pool: &[Request], at_start: bool, k: TaskNo) -> Option<usize>
    ensures { NamedAt at_start k.0 pool.now result }
{
    pool.iter().position(|q| k == waiter_of(*q, at_start))
}

// The first task whose run names a task as the waiter for its end; 17 where none does, as the definition `run_at`
// counts.
fn run_at(tasks: [Task; 16], k: TaskNo) -> u8
    ensures { result ≡ run_at k.0 tasks }
{
    let i = tasks.iter().position(|e| k == e.end_waiter).unwrap_or(16);
    i as u8 + 1
}

// The task of the queued request at a place, from 1; nobody where there is none.
// Nobody is task 0, as in the table and in the definition.
pub(crate) fn target_at(pool: [Request; 32], queued: u8, place: u8) -> TaskNo
    requires { queued ≤ 32 }
    ensures { result ≡ target_at place (take queued pool) }
{
    if place == 0 {
        return TaskNo(0);
    }
    if queued < place {
        return TaskNo(0);
    }
    pool[(place - 1) as usize].target
}

// The holder of a subprogram; nobody where it is free, and where there is none of that number.
// Nobody is task 0 here too.
pub(crate) fn holder_at(subs: [Sub; 8], m: SubNo) -> TaskNo
    ensures { result ≡ holder_at m.0 subs }
{
    if 7 < m.0 {
        return TaskNo(0);
    }
    subs[m.0 as usize].holder
}

// The flags of a mask that are not set.
fn missing_of(flags: u32, mask: u32) -> u32
    ensures { result ≡ missing flags mask }
{
    mask - (mask & flags)
}

// A ready task is active or stands behind others.
fn by_queue(queue: &[TaskNo], k: TaskNo) -> Cause
    requires { length queue.now ≤ 16 }
    ensures { result ≡ ready_cause (ahead_in k.0 queue.now) }
{
    let n = ahead(queue, k);
    if n == 0 {
        return Cause::Active;
    }
    Cause::Ready(n as u8)
}

// A task that waits for the start of the request that names it.
fn by_start(pool: &[Request], k: TaskNo) -> Cause
    requires { length pool.now ≤ 32 }
    ensures { result ≡ start_cause k.0 pool.now }
{
    match named_at(pool, true, k) {
        Some(i) => Cause::Start(i as u8 + 1, pool[i].target),
        None => Cause::Start(pool.len() as u8 + 1, TaskNo(0)),
    }
}

// A task that waits for the end of the run of the request, or of the task, that names it.
fn by_end(tasks: [Task; 16], pool: &[Request], k: TaskNo) -> Cause
    requires { length pool.now ≤ 32 }
    ensures { result ≡ end_cause k.0 tasks pool.now }
{
    match named_at(pool, false, k) {
        Some(i) => Cause::EndOfRequest(i as u8 + 1, pool[i].target),
        None => Cause::EndOfRun(TaskNo(run_at(tasks, k))),
    }
}

// A task that waits for a subprogram.
fn by_sub(subs: [Sub; 8], m: SubNo) -> Cause
    ensures { result ≡ sub_cause m subs }
{
    Cause::Subprogram(m, holder_at(subs, m))
}

// Why a task is not running, or that it is.
#[tactic(auto, unfolding(crate::specs::Causes::cause_of))]
pub(crate) fn cause_of(t: &Table, k: TaskNo) -> Cause
    requires { Sized t.now }
    ensures { result ≡ cause_of t.now k.0 }
{
    let queue = &t.queue[..t.ready as usize];
    let pool = &t.rest.pool[..t.rest.queued as usize];
    match places::task_at(t.tasks, k).state {
        State::Dormant => Cause::Dormant,
        State::Ready => by_queue(queue, k),
        State::Paused(at) => Cause::Paused(at),
        State::Due(at) => Cause::Due(at),
        State::Flags(mode, mask) => Cause::Flags(mode, missing_of(t.rest.flags, mask)),
        State::AwaitStart => by_start(pool, k),
        State::AwaitEnd => by_end(t.tasks, pool, k),
        State::AwaitSub(m) => by_sub(t.rest.subs, m),
        State::AwaitMessage(s) => Cause::Message(s),
    }
}
