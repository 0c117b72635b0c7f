// The entries by task number: one guarded way from a number to its place, one read, one write.
ghost use Rattle.std.specs.Prelude.{◌≡◌};
ghost use Rattle.executive.specs.Places.{task_at, put_at, entry_place};

use crate::{Millis, State, Task};
use records::TaskNo;

// The blank entry.
pub const NO_TASK: Task = Task {
    own: 0,
    state: State::Dormant,
    priority: 0,
    argument: 0,
    start: Millis(0),
    end_waiter: TaskNo(0),
};

// The place of a task's entry; 16, which is no place, for a number that no task can have. Whoever reads or writes
// by a number that the table holds asks here. No Option: what engines promise rests on `entry_place` as it is stated.
#[tactic(auto, using(crate::proofs::places::TaskAt::places))]
pub fn entry_place(k: TaskNo) -> usize
    ensures { result ≡ entry_place k.0 }
{
    match k.0 {
        1..=16 => (k.0 - 1) as usize,
        _ => 16,
    }
}

// The task's entry, read where it lies; a blank one where there is no such task.
#[tactic(auto, using(crate::proofs::places::TaskAt::entries))]
pub(crate) fn read_at(tasks: &[Task; 16], k: TaskNo) -> Task
    ensures { result ≡ task_at tasks.now k.0 }
{
    match tasks.get(entry_place(k)) {
        Some(e) => *e,
        None => NO_TASK,
    }
}

// The same of entries that are handed over.
pub fn task_at(tasks: [Task; 16], k: TaskNo) -> Task
    ensures { result ≡ task_at tasks k.0 }
{
    read_at(&tasks, k)
}

// One task's entry, lent where it lies: it is rewritten, its state and its time with the rest.
fn rewrite(task: &mut Task, e: Task)
    ensures { task.new ≡ e }
{
    *task = e;
}

// The entries with one task's rewritten; a number that names no task changes none.
#[tactic(auto, using(crate::proofs::places::TaskAt::entries))]
pub fn put_at(tasks: [Task; 16], k: TaskNo, e: Task) -> [Task; 16]
    ensures { result ≡ put_at tasks k.0 e }
{
    let i = entry_place(k);
    if 15 < i {
        return tasks;
    }
    let mut out = tasks;
    rewrite(&mut out[i], e);
    out
}
