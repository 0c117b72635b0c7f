// The path from a task to whom it waits for.
ghost use Rattle.std.specs.Prelude.{◌≡◌, false, ◌≤◌, ◌<◌, length};
ghost use Rattle.why.specs.Causes.{Sized};
ghost use Rattle.why.specs.Paths.{MetAt, longer, closed, unmet, task_path, link_path, refusal, Explains, IsNoTable};

use crate::{Cause, On, Reasons, Step, causes};
use executive::{Table, refusals};
use records::TaskNo;

// A blank step.
const NO_STEP: Step = Step {
    task: TaskNo(0),
    cause: Cause::Dormant,
};

// No step yet, or none at all. The number, and V with it, are the C interface's (docs/CALLS.md, 6), as in `Reasons`.
fn none(number: u8, v: bool) -> Reasons
    ensures { result ≡ refusal number v }
{
    Reasons {
        number,
        v,
        steps: [NO_STEP; 16],
        length: 0,
        ring: 0,
    }
}

// The answer about what is no table: 1.
pub fn no_table() -> Reasons
    ensures { IsNoTable result }
{
    none(1, false)
}

// The place of a task on a path.
fn met_at(path: &[Step], k: TaskNo) -> Option<usize>
    ensures { MetAt k.0 path.now result }
{
    path.iter().position(|s| k == s.task)
}

// The path with one step more. It is made anew here and in `with_ring`: one that is changed where it stands is moved by
// memmove, which the archive for C does not ask for.
fn with_step(path: Reasons, k: TaskNo, cause: Cause) -> Reasons
    requires { path.length < 16 }
    ensures { result ≡ longer path k cause }
{
    let mut steps = path.steps;
    steps[path.length as usize] = Step { task: k, cause };
    Reasons {
        steps,
        length: path.length + 1,
        ..path
    }
}

// The path that leads back to its step at a place: from there on it is a ring.
fn with_ring(path: Reasons, place: u8) -> Reasons
    requires { place ≤ path.length }
    ensures { result ≡ closed path place }
{
    Reasons {
        ring: path.length - place,
        ..path
    }
}

// Goes on at a task: one that has been met closes a ring; any other is a step, and leads on to what it waits for. The
// two functions call each other, as document 01 has it for a task that waits for a request that waits for a task.
#[cycle(follow_link_follow_task)]
fn follow_task(t: &Table, k: TaskNo, path: Reasons) -> Reasons
    requires { Sized t.now × (path.length ≤ 16) }
    ensures { result ≡ task_path (unmet path) t.now k path }
{
    if let Some(place) = met_at(&path.steps[..path.length as usize], k) {
        return with_ring(path, place as u8);
    }
    if 16 <= path.length {
        return path;
    }
    let cause = causes::cause_of(t, k);
    let on = with_step(path, k, cause);
    match cause {
        Cause::Dormant => on,
        Cause::Active => on,
        Cause::Ready(_) => on,
        Cause::Paused(_) => on,
        Cause::Due(_) => on,
        Cause::Flags(_, _) => on,
        Cause::Start(p, _) => follow_link(t, On::Request(p), on),
        Cause::EndOfRequest(p, _) => follow_link(t, On::Request(p), on),
        Cause::EndOfRun(j) => follow_link(t, On::Run(j), on),
        Cause::Subprogram(m, _) => follow_link(t, On::Held(m), on),
        Cause::Message(_) => on,
    }
}

// Goes on at the task of what is waited for.
#[cycle(follow_link_follow_task)]
fn follow_link(t: &Table, on: On, path: Reasons) -> Reasons
    requires { Sized t.now × (path.length ≤ 16) }
    ensures { result ≡ link_path (unmet path) t.now on path }
{
    match on {
        On::Request(p) => {
            let k = causes::target_at(t.rest.pool, t.rest.queued, p);
            follow_task(t, k, path)
        }
        On::Run(k) => follow_task(t, k, path),
        On::Held(m) => {
            let k = causes::holder_at(t.rest.subs, m);
            follow_task(t, k, path)
        }
    }
}

// Why a task is not running: 1 where the table is not well formed, 6 with V where it has no such task, else the path.
pub fn explain(table: Table, task: TaskNo) -> Reasons
    ensures { Explains table task result }
{
    if table.check() != 0 {
        return none(1, false);
    }
    if refusals::no_such_task(table.rest.count, task) {
        return none(6, true);
    }
    let start = none(0, false);
    follow_task(&table, task, start)
}
