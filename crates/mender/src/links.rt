// The links: runs by task number, then requests by place, of a request its start waiter before its end waiter. A link
// stands, and its waiter is named, or it is cleared.
ghost use Rattle.std.specs.Prelude.{◌≡◌, ◌<◌};
ghost use Rattle.mender.specs.Links.{runs_of, asked_of, links_of};
ghost use Rattle.mender.specs.Passes.{named_at, marked, stands, run_turn, linked_runs, start_turn, end_turn, linked_requests, link_pass};

use crate::entries;
use executive::{Request, Table, Task, places, states};
use records::TaskNo;

// The table with its links right, and who is named.
#[derive(Clone, Copy)]
pub(crate) struct Linked {
    pub(crate) table: Table,
    pub(crate) named: [bool; 16],
}

fn named_at(named: [bool; 16], w: TaskNo) -> bool
    ensures { result ≡ named_at named w.0 }
{
    let i = places::entry_place(w);
    i < 16 && named[i]
}

fn mark(named: &mut [bool; 16], w: TaskNo)
    ensures { named.new ≡ marked named.old w.0 }
{
    let i = places::entry_place(w);
    if i < 16 {
        named[i] = true;
    }
}

// Whether a link of task or target j to w stands, where w is to be in a state of a kind: a number, as the executive's
// `states::is_of` takes it.
#[tactic(auto, unfolding(crate::specs::Passes::stands))]
fn stands(tasks: [Task; 16], named: [bool; 16], count: u8, kind: u8, j: u8, w: TaskNo) -> bool
    ensures { result ≡ stands count tasks named kind j w }
{
    entries::is_task(count, w)
        && j != w.0
        && states::is_of(places::task_at(tasks, w).state, kind)
        && !named_at(named, w)
}

// The run of the task at place i.
fn run_turn(tasks: &mut [Task; 16], named: &mut [bool; 16], i: usize, count: u8)
    requires { i < 16 }
    ensures { runs_of tasks.new named.new ≡ run_turn count (runs_of tasks.old named.old) i }
{
    let w = tasks[i].end_waiter;
    if stands(*tasks, *named, count, states::AWAIT_END, i as u8 + 1, w) {
        mark(named, w);
    } else {
        tasks[i].end_waiter = TaskNo(0);
    }
}

// The runs of all tasks: who is named by one.
fn linked_runs(tasks: &mut [Task; 16], count: u8) -> [bool; 16]
    ensures { runs_of tasks.new result ≡ linked_runs count tasks.old }
{
    let mut named = [false; 16];
    for i in 0..16 {
        run_turn(tasks, &mut named, i, count);
    }
    named
}

// The waiter for a request's start. It and the next stay two functions: each reads and clears a field of its own.
#[tactic(auto, unfolding(crate::specs::Passes::start_turn))]
fn start_turn(q: &mut Request, named: &mut [bool; 16], tasks: [Task; 16], count: u8)
    ensures { asked_of q.new named.new ≡ start_turn count tasks (asked_of q.old named.old) }
{
    let w = q.start_waiter;
    if stands(tasks, *named, count, states::AWAIT_START, q.target.0, w) {
        mark(named, w);
    } else {
        q.start_waiter = TaskNo(0);
    }
}

// The waiter for its end; where it names one for its start, it names no other.
#[tactic(auto, unfolding(crate::specs::Passes::end_turn))]
fn end_turn(q: &mut Request, named: &mut [bool; 16], tasks: [Task; 16], count: u8)
    ensures { asked_of q.new named.new ≡ end_turn count tasks (asked_of q.old named.old) }
{
    let w = q.end_waiter;
    if q.start_waiter.0 == 0 && stands(tasks, *named, count, states::AWAIT_END, q.target.0, w) {
        mark(named, w);
    } else {
        q.end_waiter = TaskNo(0);
    }
}

// The requests, one after the other.
fn linked_requests(pool: &mut [Request; 32], named: &mut [bool; 16], tasks: [Task; 16], count: u8)
    ensures { links_of pool.new named.new ≡ linked_requests count tasks pool.old named.old }
{
    for q in pool.iter_mut() {
        start_turn(q, named, tasks, count);
        end_turn(q, named, tasks, count);
    }
}

// The third pass.
#[tactic(auto, unfolding(crate::specs::Passes::link_pass))]
pub(crate) fn link_pass(mut t: Table) -> Linked
    ensures { result ≡ link_pass t }
{
    let count = t.rest.count;
    let mut named = linked_runs(&mut t.tasks, count);
    linked_requests(&mut t.rest.pool, &mut named, t.tasks, count);
    Linked { table: t, named }
}
