// The check of a table (docs/TABLE.md): every rule but the queue's, from the entries and the rest,
// each in one pass; with the queue's own, number 0 exactly for a well-formed table, else 1.
ghost use Rattle.std.specs.Prelude.{◌≡◌, ◌≤◌};
ghost use Rattle.executive.specs.States.{ready};
ghost use Rattle.executive.specs.Check.{asked_right, in_passes, all_but_queue, queue_right, is_well_formed, Checked};

use crate::{
    Request, Rest, Table, Task, message_check, passes, queue_check, rules, subprogram_check,
    waiters,
};

// The requests, their waiters and those of the runs; the pool's free places are last and zero. The pool with its count,
// and no slice: both its parts are looked at.
fn pool_right(tasks: &[Task; 16], pool: &[Request; 32], queued: usize, count: u8) -> bool
    requires { queued ≤ 32 }
    ensures { result ≡ asked_right tasks.now count queued pool.now }
{
    let asked = &pool[..queued];
    passes::requests_right(tasks, asked, count)
        && waiters::waiters_right(tasks, asked, count)
        && passes::all_free(&pool[queued..])
}

// Every rule but the queue's: the numbers, the entries, the alarms, the pool, the subprograms, the messages and the
// mail. Each array is read where it lies.
#[tactic(auto, unfolding(crate::specs::Check::in_passes))]
fn in_passes(tasks: &[Task; 16], rest: &Rest) -> bool
    ensures { result ≡ in_passes tasks.now rest.now }
{
    let count = rest.count;
    let now = rest.clock;
    rules::in_bounds(count, rest.granule, now, rest.queued)
        && passes::entries_right(tasks, count, now, rest.flags)
        && passes::all_blank(&tasks[count as usize..])
        && passes::all_alarms(&rest.alarms, now)
        && pool_right(tasks, &rest.pool, rest.queued as usize, count)
        && subprogram_check::subs_right(tasks, &rest.subs, count)
        && message_check::sent_right(tasks, &rest.messages, rest.sent, count)
        && message_check::mail_right(tasks, &rest.mail, count)
}

// The same in the order of the rules.
pub fn all_but_queue(tasks: [Task; 16], rest: Rest) -> bool
    ensures { result ≡ all_but_queue tasks rest }
{
    in_passes(&tasks, &rest)
}

impl Table {
    // The queue's own rules: it holds exactly the ready tasks, once each, in descending priority; the word of the ready
    // levels is theirs.
    pub(crate) fn queue_right(self) -> bool
        ensures { result ≡ queue_right self }
    {
        queue_check::queue_right(
            &self.tasks,
            &self.queue,
            self.ready,
            self.rest.count,
            self.levels,
        )
    }

    // The table keeps every rule.
    #[tactic(auto, unfolding(crate::specs::Check::is_well_formed))]
    pub(crate) fn is_well_formed(self) -> bool
        ensures { result ≡ is_well_formed self }
    {
        self.queue_right() && all_but_queue(self.tasks, self.rest)
    }

    // The check of a table: 0 if it is well formed, 1 if it is not. Numbers, since `Checked` is stated of them.
    pub fn check(self) -> u8
        ensures { Checked self result }
    {
        if self.is_well_formed() {
            return 0;
        }
        1
    }
}
