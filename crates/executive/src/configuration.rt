// The table that a configuration makes: one 40, then 1 to 16 of 41, then 42, and nothing more (docs/CALLS.md, 3).
ghost use Rattle.std.specs.Prelude.{◌≡◌, ◌+◌, ◌<◌, ◌≤◌};
ghost use Rattle.executive.specs.Queue.{count};
ghost use Rattle.executive.specs.Table.{InFlight, view, enter_all_in_flight, lit_in_flight};
ghost use Rattle.executive.specs.Lists.{pad, up_to};
ghost use Rattle.executive.specs.Places.{no_task};
ghost use Rattle.executive.specs.Configuration.{place_in, own_in, mark_in, tasks_in, task_right, is_configuration, blank_rest, with_tasks, dormant_at, sleepers};
ghost use Rattle.executive.specs.Configuration.{marked_start, starters, made_by, Makes, Measures};

use crate::decisions::How;
use crate::messages::{NO_MAIL, NO_MESSAGE};
use crate::places::NO_TASK;
use crate::pool::NO_REQUEST;
use crate::subprograms::NO_SUB;
use crate::{Fresh, Millis, Rest, Table, Task, Work, answers};
use records::TaskNo;
use records::reading::byte_at;

// Where the record of the task at place i, task i + 1, stands.
fn place_in(i: u8) -> usize
    ensures { result ≡ place_in (i + 1) }
{
    3 * (i as usize) + 2
}

// The own priority that it gives.
fn own_in(s: &[u8], i: u8) -> u8
    ensures { result ≡ own_in s.now (i + 1) }
{
    byte_at(s, place_in(i) + 1)
}

// The mark that it gives.
fn mark_in(s: &[u8], i: u8) -> u8
    ensures { result ≡ mark_in s.now (i + 1) }
{
    byte_at(s, place_in(i) + 2)
}

// How many 41 follow the 40, one after the other; 16 at most.
pub fn tasks_in(s: &[u8]) -> u8
    ensures { (result ≡ tasks_in s.now) × (result ≤ 16) }
{
    for n in 0..16 {
        if byte_at(s, place_in(n)) != 0x41 {
            return n;
        }
    }
    16
}

// The length of the configuration that the bytes begin with, up to its 42; 0 where they begin with none.
// A number: it is public, and `Measures` is stated so.
pub fn length_in(bytes: &[u8]) -> usize
    ensures { Measures bytes.now result }
{
    if byte_at(bytes, 0) != 0x40 {
        return 0;
    }
    let n = tasks_in(bytes);
    if byte_at(bytes, place_in(n)) != 0x42 {
        return 0;
    }
    3 * (n as usize) + 3
}

// Whether the record of the task at place i has its numbers in range.
fn task_right(s: &[u8], i: u8) -> bool
    ensures { result ≡ task_right s.now (i + 1) }
{
    own_in(s, i) <= 15 && mark_in(s, i) <= 1
}

// Whether the records of the tasks 1 to n have.
fn tasks_right(s: &[u8], n: u8) -> bool
    requires { n ≤ 16 }
    ensures { result ≡ up_to (task_right s.now) n }
{
    for i in 0..n {
        if !task_right(s, i) {
            return false;
        }
    }
    true
}

// Whether the bytes are a configuration.
pub fn is_configuration(s: &[u8]) -> bool
    ensures { result ≡ is_configuration s.now }
{
    let n = tasks_in(s);
    1 <= n && s.len() == length_in(s) && 1 <= byte_at(s, 1) && tasks_right(s, n)
}

// The entry of a dormant task.
fn dormant(own: u8) -> Task
    ensures { result ≡ dormant_at own }
{
    let mut e = NO_TASK;
    e.own = own;
    e
}

// The entries of n dormant tasks, each with its own priority, and blank entries after them.
fn all_dormant(s: &[u8], n: u8) -> [Task; 16]
    requires { n ≤ 16 }
    ensures { result ≡ pad 16 no_task (sleepers s.now n 1) }
{
    let mut tasks = [NO_TASK; 16];
    for i in 0..n {
        tasks[i as usize] = dormant(own_in(s, i));
    }
    tasks
}

// The rest of a table of n tasks with nothing running or asked for.
fn blank_rest(n: u8, granule: u8) -> Rest
    ensures { result ≡ blank_rest n granule }
{
    Rest {
        count: n,
        granule,
        clock: Millis(0),
        flags: 0,
        alarms: [Millis(0); 32],
        pool: [NO_REQUEST; 32],
        queued: 0,
        subs: [NO_SUB; 8],
        messages: [NO_MESSAGE; 32],
        sent: 0,
        mail: [NO_MAIL; 16],
    }
}

// A table with nobody ready.
fn table_of(tasks: [Task; 16], rest: Rest) -> Table
    ensures { result ≡ with_tasks tasks rest }
{
    Table {
        tasks,
        queue: [TaskNo(0); 16],
        ready: 0,
        levels: 0,
        rest,
    }
}

// The task at place i, which is not ready yet, starts if it is marked: at its own priority, with argument 0 and
// scheduled start 0.
fn start_at(w: Work, s: &[u8], i: u8) -> Work
    requires { InFlight 1 w × (i < 16) × (count (i + 1) (view w.table) ≡ 0) }
    ensures { result ≡ lit_in_flight (enter_all_in_flight (marked_start s.now (i + 1)) w) }
{
    if mark_in(s, i) != 1 {
        return w;
    }
    let k = TaskNo(i + 1);
    let mut q = NO_REQUEST;
    q.target = k;
    q.priority = own_in(s, i);
    w.enter(k, How::Begun, q, Millis(0))
}

// The marked tasks of 1 to n start, in ascending number, where nobody is ready.
fn start_marked(w: Work, s: &[u8], n: u8) -> Work
    requires { InFlight n w × (w.table.ready ≡ 0) }
    ensures { result ≡ lit_in_flight (enter_all_in_flight (starters s.now n 1) w) }
{
    let mut v = w;
    for i in 0..n {
        v = start_at(v, s, i);
    }
    v
}

// A table with its answer.
fn made(number: u8, table: Table) -> Fresh
    ensures { result ≡ made_by number table }
{
    let m = answers::marked(false, false, false);
    let answer = table.answer(number, m, 0);
    Fresh { answer, table }
}

// The table of a configuration's bytes, with its answer: number 0 and the table, or number 2 and the all-zero table.
pub fn fresh(bytes: &[u8]) -> Fresh
    ensures { Makes bytes.now result }
{
    if !is_configuration(bytes) {
        let none = all_dormant(bytes, 0);
        let rest = blank_rest(0, 0);
        return made(2, table_of(none, rest));
    }
    let n = tasks_in(bytes);
    let tasks = all_dormant(bytes, n);
    let rest = blank_rest(n, byte_at(bytes, 1));
    let blank = table_of(tasks, rest);
    let w = blank.begin();
    let v = start_marked(w, bytes, n);
    made(0, v.table)
}
