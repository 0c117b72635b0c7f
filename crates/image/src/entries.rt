// One task's entry in the lent bytes of its image: what departing and entering write of it, and no more.
ghost use Rattle.std.specs.Prelude.{◌≡◌, ◌<◌, length, get_or, set};
ghost use Rattle.executive.specs.declared.Table.{Table};
ghost use Rattle.executive.specs.Places.{no_task, task_at, put_at};
ghost use Rattle.executive.specs.Entries.{with_state, begun, aimed};
ghost use Rattle.executive.specs.Decisions.{gone_as, change_for};
ghost use Rattle.image.specs.Image.{image_length};
ghost use Rattle.image.specs.Laid.{Laid, with_tasks, with_run, with_start, with_waiter};

use crate::{AWAITED, IMAGE, fields, numbers, storing};
use executive::decisions::{How, Leave};
use executive::{Millis, Request, State, Task, pool, states};
use records::TaskNo;

// The state of the task whose entry is the i-th.
fn set_state(b: &mut [u8; IMAGE], i: usize, s: State)
    requires { i < 16 }
    ensures { (t : Table) → Laid b.old t
        → Laid b.new (with_tasks (set t.tasks i (with_state s (get_or t.tasks i no_task))) t) }
{
    let number = states::awaited_of(s);
    let own = b[i * 26];
    storing::put_state(b, i * 26, own, s);
    numbers::put_byte(b, AWAITED + i, number);
}

// Its run: priority and argument, the last scheduled start, who waits for the end.
fn set_run(b: &mut [u8; IMAGE], i: usize, q: Request, start: Millis)
    requires { i < 16 }
    ensures { (t : Table) → Laid b.old t
        → Laid b.new (with_tasks (set t.tasks i (with_run q start (get_or t.tasks i no_task))) t) }
{
    let end_waiter = q.end_waiter;
    let run = Task {
        own: 0,
        state: State::Dormant,
        priority: q.priority,
        argument: q.argument,
        start,
        end_waiter,
    };
    storing::put_run(b, i * 26 + 14, run);
}

// Its last scheduled start.
fn set_start(b: &mut [u8; IMAGE], i: usize, start: Millis)
    requires { i < 16 }
    ensures { (t : Table) → Laid b.old t
        → Laid b.new (with_tasks (set t.tasks i (with_start start (get_or t.tasks i no_task))) t) }
{
    numbers::put_long(b, i * 26 + 17, start.0);
}

// Who waits for its end.
fn set_waiter(b: &mut [u8; IMAGE], i: usize, w: TaskNo)
    requires { i < 16 }
    ensures { (t : Table) → Laid b.old t
        → Laid b.new (with_tasks (set t.tasks i (with_waiter w (get_or t.tasks i no_task))) t) }
{
    numbers::put_byte(b, i * 26 + 25, w.0);
}

// A due task's last scheduled start becomes the time aimed at; any other keeps its own.
fn aim(b: &mut [u8; IMAGE], i: usize)
    requires { i < 16 }
    ensures { (t : Table) → Laid b.old t
        → Laid b.new (with_tasks (set t.tasks i (with_start
        (aimed (get_or t.tasks i no_task).state (get_or t.tasks i no_task).start) (get_or t.tasks i no_task))) t) }
{
    // The byte of a due task's kind.
    if 3 != b[i * 26 + 1] {
        return;
    }
    let time = numbers::long_in(b, i * 26 + 2);
    set_start(b, i, Millis(time));
}

// The entry as its task leaves; one that stays keeps it.
fn leave(b: &mut [u8; IMAGE], i: usize, how: Leave)
    requires { i < 16 }
    ensures { (t : Table) → Laid b.old t
        → Laid b.new (with_tasks (set t.tasks i (gone_as how (get_or t.tasks i no_task))) t) }
{
    match how {
        Leave::Stays => {}
        Leave::Sleeps => {
            set_run(b, i, pool::NO_REQUEST, Millis(0));
            set_state(b, i, State::Dormant);
        }
        Leave::DueAt(at) => {
            set_waiter(b, i, TaskNo(0));
            set_state(b, i, State::Due(at));
        }
        Leave::As(s) => set_state(b, i, s),
    }
}

// Its run begins.
fn begun(b: &mut [u8; IMAGE], i: usize, q: Request, time: Millis)
    requires { i < 16 }
    ensures { (t : Table) → Laid b.old t
        → Laid b.new (with_tasks (set t.tasks i (begun q time (get_or t.tasks i no_task))) t) }
{
    set_run(b, i, q, time);
    set_state(b, i, State::Ready);
}

// The entry as its task enters.
fn enter(b: &mut [u8; IMAGE], i: usize, how: How, q: Request, time: Millis)
    requires { i < 16 }
    ensures { (t : Table) → Laid b.old t
        → Laid b.new (with_tasks (set t.tasks i (change_for q time how (get_or t.tasks i no_task))) t) }
{
    match how {
        How::Woken => set_state(b, i, State::Ready),
        How::Risen => {
            aim(b, i);
            set_state(b, i, State::Ready);
        }
        How::Begun => begun(b, i, q, time),
    }
}

// The entry of task k as it leaves; a number that names no task changes nothing.
// Three functions find the entry and change it: a closure for the change would be no plainer.
pub(crate) fn gone(b: &mut [u8; IMAGE], k: TaskNo, how: Leave)
    ensures { (t : Table) → Laid b.old t
        → Laid b.new (with_tasks (put_at t.tasks k.0 (gone_as how (task_at t.tasks k.0))) t) }
{
    let i = fields::place(k.0);
    if 15 < i {
        return;
    }
    leave(b, i, how);
}

// The entry of task k as it enters; a number that names no task changes nothing.
pub(crate) fn entering(b: &mut [u8; IMAGE], k: TaskNo, how: How, q: Request, time: Millis)
    ensures { (t : Table) → Laid b.old t
        → Laid b.new (with_tasks (put_at t.tasks k.0
        (change_for q time how (task_at t.tasks k.0))) t) }
{
    let i = fields::place(k.0);
    if 15 < i {
        return;
    }
    enter(b, i, how, q, time);
}

// The entry of task k as its run begins; a number that names no task changes nothing.
pub(crate) fn beginning(b: &mut [u8; IMAGE], k: TaskNo, q: Request, time: Millis)
    ensures { (t : Table) → Laid b.old t
        → Laid b.new (with_tasks (put_at t.tasks k.0 (begun q time (task_at t.tasks k.0))) t) }
{
    let i = fields::place(k.0);
    if 15 < i {
        return;
    }
    begun(b, i, q, time);
}
