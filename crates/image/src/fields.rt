// One field of the table set, or read, in the lent bytes of its image.
ghost use Rattle.std.specs.Prelude.{◌≡◌, ◌<◌, ◌≤◌, length};
ghost use Rattle.executive.specs.declared.Table.{Table};
ghost use Rattle.executive.specs.Numbers.{flag_count};
ghost use Rattle.executive.specs.Places.{entry_place, task_at};
ghost use Rattle.executive.specs.Table.{with_rest};
ghost use Rattle.executive.specs.Rest.{with_post};
ghost use Rattle.executive.specs.Clock.{with_alarm, with_clock};
ghost use Rattle.executive.specs.Flags.{with_flags};
ghost use Rattle.executive.specs.Messages.{with_mail};
ghost use Rattle.image.specs.Image.{image_length};
ghost use Rattle.image.specs.Laid.{Laid, with_ready, with_levels, with_pool};

use crate::{ALARMS, IMAGE, LEVELS, MAIL, SENT, loading, numbers, storing};
use executive::{Mail, Millis, State, Task};
use records::{FlagNo, TaskNo};

// The blank entry.
const NO_TASK: Task = Task {
    own: 0,
    state: State::Dormant,
    priority: 0,
    argument: 0,
    start: Millis(0),
    end_waiter: TaskNo(0),
};

// Where the numbers that stand alone have their places.
pub(crate) const READY: usize = 432;

pub(crate) const COUNT: usize = 433;

pub(crate) const GRANULE: usize = 434;

pub(crate) const QUEUED: usize = 435;

pub(crate) const CLOCK: usize = 436;

pub(crate) const FLAGS: usize = 444;

pub(crate) fn set_ready(b: &mut [u8; IMAGE], n: u8)
    ensures { (t : Table) → Laid b.old t → Laid b.new (with_ready n t) }
{
    numbers::put_byte(b, READY, n);
}

pub(crate) fn set_levels(b: &mut [u8; IMAGE], n: u16)
    ensures { (t : Table) → Laid b.old t → Laid b.new (with_levels n t) }
{
    numbers::put_pair(b, LEVELS, n);
}

pub(crate) fn set_flags(b: &mut [u8; IMAGE], flags: u32)
    ensures { (t : Table) → Laid b.old t
        → Laid b.new (with_rest (with_flags flags t.rest) t) }
{
    numbers::put_word(b, FLAGS, flags);
}

pub(crate) fn set_clock(b: &mut [u8; IMAGE], time: Millis)
    ensures { (t : Table) → Laid b.old t
        → Laid b.new (with_rest (with_clock time t.rest) t) }
{
    numbers::put_long(b, CLOCK, time.0);
}

pub(crate) fn set_alarm(b: &mut [u8; IMAGE], n: usize, time: Millis)
    requires { n < 32 }
    ensures { (t : Table) → Laid b.old t
        → Laid b.new (with_rest (with_alarm n time t.rest) t) }
{
    storing::put_alarm(b, ALARMS + n * 8, time);
}

// The alarm of a flag; a number that names no flag changes nothing.
pub(crate) fn set_alarm_of(b: &mut [u8; IMAGE], f: FlagNo, time: Millis)
    ensures { (t : Table) → Laid b.old t → f.0 < flag_count
        → Laid b.new (with_rest (with_alarm f.0 time t.rest) t) }
{
    if 31 < f.0 {
        return;
    }
    set_alarm(b, f.0 as usize, time);
}

// How many requests are queued.
pub(crate) fn set_queued(b: &mut [u8; IMAGE], n: u8)
    ensures { (t : Table) → Laid b.old t → Laid b.new (with_pool t.rest.pool n t) }
{
    numbers::put_byte(b, QUEUED, n);
}

// How many messages wait.
pub(crate) fn set_sent(b: &mut [u8; IMAGE], n: u8)
    ensures { (t : Table) → Laid b.old t
        → Laid b.new (with_rest (with_post t.rest.messages n t.rest.mail t.rest) t) }
{
    numbers::put_byte(b, SENT, n);
}

// The place of a task's entry; 16, which is no place, for a number that no task can have.
// A number, and no Option: `entry_place` is stated so.
pub(crate) fn place(k: u8) -> usize
    ensures { result ≡ entry_place k }
{
    let n = numbers::wide(k);
    if n == 0 {
        return 16;
    }
    if 16 < n {
        return 16;
    }
    (n - 1) as usize
}

// A number of places that are taken, of so many that there are.
pub(crate) fn at_most(n: u8, most: u8) -> u8
    ensures upper_bound { result ≤ most }
    ensures value { n ≤ most → result ≡ n }
{
    n.min(most)
}

// The mail of a task; a number that names no task has none.
pub(crate) fn set_mail(b: &mut [u8; IMAGE], k: TaskNo, mail: Mail)
    ensures { (t : Table) → Laid b.old t
        → Laid b.new (with_rest (with_mail k.0 mail t.rest) t) }
{
    let i = place(k.0);
    if 15 < i {
        return;
    }
    storing::put_mail(b, MAIL + i * 9, mail);
}

// The entry of a task, read; a blank one for a number that names no task.
pub(crate) fn entry(b: &[u8; IMAGE], k: TaskNo) -> Task
    ensures { (t : Table) → Laid b.now t → result ≡ task_at t.tasks k.0 }
{
    let i = place(k.0);
    if 15 < i {
        return NO_TASK;
    }
    loading::task_in(b, i)
}

// The priority of a task; a number that names no task has none.
// It does not ask `place`: the step does it for each task of the queue that it passes.
// What names no task reads as `no_task` has it: 0.
pub(crate) fn level(b: &[u8; IMAGE], k: u8) -> u8
    ensures { (t : Table) → Laid b.now t → result ≡ (task_at t.tasks k).priority }
{
    let n = numbers::wide(k);
    if n == 0 {
        return 0;
    }
    if 16 < n {
        return 0;
    }
    b[(n as usize) * 26 - 12]
}

// Its argument, its last scheduled start, who waits for its end.
pub(crate) fn argument(b: &[u8; IMAGE], k: TaskNo) -> u16
    ensures { (t : Table) → Laid b.now t → result ≡ (task_at t.tasks k.0).argument }
{
    let i = place(k.0);
    if 15 < i {
        return 0;
    }
    numbers::pair_in(b, i * 26 + 15)
}

pub(crate) fn start(b: &[u8; IMAGE], k: TaskNo) -> Millis
    ensures { (t : Table) → Laid b.now t → result ≡ (task_at t.tasks k.0).start }
{
    let i = place(k.0);
    if 15 < i {
        return Millis(0);
    }
    Millis(numbers::long_in(b, i * 26 + 17))
}

pub(crate) fn end_waiter(b: &[u8; IMAGE], k: TaskNo) -> TaskNo
    ensures { (t : Table) → Laid b.now t → result ≡ (task_at t.tasks k.0).end_waiter }
{
    let i = place(k.0);
    if 15 < i {
        return TaskNo(0);
    }
    TaskNo(b[i * 26 + 25])
}
