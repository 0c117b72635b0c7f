// The check of waiters: each is named once, in the way that it waits.
ghost use Rattle.std.specs.Prelude.{◌≡◌, count_by, eqb};
ghost use Rattle.executive.specs.Lists.{up_to};
ghost use Rattle.executive.specs.Check.{waiters_at, is_quiet, is_lone};

use crate::{Request, Task, places, states};
use records::TaskNo;

// How many requests name a task as the waiter for their start.
fn starts_of(asked: &[Request], k: TaskNo) -> usize
    ensures { result ≡ count_by (λ q. eqb k.0 q.start_waiter.0) asked.now }
{
    asked.iter().filter(|q| k == q.start_waiter).count()
}

// How many name it as the waiter for the end of the run that they begin.
fn ends_of(asked: &[Request], k: TaskNo) -> usize
    ensures { result ≡ count_by (λ q. eqb k.0 q.end_waiter.0) asked.now }
{
    asked.iter().filter(|q| k == q.end_waiter).count()
}

// How many runs name it as the waiter for their end.
fn runs_of(tasks: &[Task], k: TaskNo) -> usize
    ensures { result ≡ count_by (λ e. eqb k.0 e.end_waiter.0) tasks.now }
{
    tasks.iter().filter(|e| k == e.end_waiter).count()
}

// Task k is named once in the way that it waits, else not at all; its own run does not name it.
#[tactic(auto, using(crate::proofs::Lists::Chains::counts), unfolding(crate::specs::Check::waiters_at))]
fn waiters_at(tasks: &[Task; 16], asked: &[Request], k: TaskNo) -> bool
    ensures { result ≡ waiters_at tasks.now asked.now k.0 }
{
    let e = places::read_at(tasks, k);
    starts_of(asked, k) == states::is_of(e.state, states::AWAIT_START) as usize
        && ends_of(asked, k) + runs_of(tasks, k)
            == states::is_of(e.state, states::AWAIT_END) as usize
        && k != e.end_waiter
}

fn all_waiters(tasks: &[Task; 16], asked: &[Request], count: u8) -> bool
    ensures { result ≡ up_to (waiters_at tasks.now asked.now) count }
{
    (0..count).all(|k| waiters_at(tasks, asked, TaskNo(k + 1)))
}

// A task that waits for no start and no end, and for whose end nobody waits.
fn is_quiet(e: Task) -> bool
    ensures { result ≡ is_quiet e }
{
    !states::is_of(e.state, states::AWAIT_START)
        && !states::is_of(e.state, states::AWAIT_END)
        && e.end_waiter.0 == 0
}

// A request that names no waiter.
fn is_lone(q: Request) -> bool
    ensures { result ≡ is_lone q }
{
    q.start_waiter.0 == 0 && q.end_waiter.0 == 0
}

// Each task is named once in the way that it waits, else not at all. Where nobody waits and nobody is named there
// is nothing to count.
pub(crate) fn waiters_right(tasks: &[Task; 16], asked: &[Request], count: u8) -> bool
    ensures { result ≡ up_to (waiters_at tasks.now asked.now) count }
{
    if tasks.iter().all(|e| is_quiet(*e)) && asked.iter().all(|q| is_lone(*q)) {
        return true;
    }
    all_waiters(tasks, asked, count)
}
