// The entries after the first pass and after the last, each by its place.
ghost use Rattle.std.specs.Prelude.{◌≡◌, get_or};
ghost use Rattle.executive.specs.Subprograms.{no_subprogram};
ghost use Rattle.executive.specs.Check.{is_nobody, is_task};
ghost use Rattle.mender.specs.Rules.{rule_number, numbers_of};
ghost use Rattle.mender.specs.Passes.{is_holder, own_kept, slept, entry_after, mail_after, entries_after, mails_after, awaits_link, is_lost, waiter_after, waiters_after};

use crate::Rule;
use executive::{Mail, Millis, State, Sub, Task, entries, messages, places, refusals, states};
use records::TaskNo;
use std::array;

// Whether a number names one of the tasks.
pub(crate) fn is_task(count: u8, k: TaskNo) -> bool
    ensures { result ≡ is_task count k }
{
    !refusals::no_such_task(count, k)
}

// Whether it names a task that is not dormant.
pub(crate) fn is_busy(tasks: [Task; 16], count: u8, k: TaskNo) -> bool
    ensures { result ≡ is_holder count tasks k }
{
    is_task(count, k) && !states::is_dormant(places::task_at(tasks, k).state)
}

// The own priority; one over 15 becomes 0.
fn own_kept(e: Task) -> u8
    ensures { result ≡ own_kept e }
{
    if 15 < e.own {
        return 0;
    }
    e.own
}

// The entry of a task that becomes dormant.
fn slept(e: Task) -> Task
    ensures { result ≡ slept e }
{
    let own = own_kept(e);
    Task {
        own,
        priority: 0,
        argument: 0,
        end_waiter: TaskNo(0),
        state: State::Dormant,
        start: Millis(0),
    }
}

// The entry of task k, which breaks the own rule b.
#[tactic(auto, using(crate::proofs::CodeTests::has_number), unfolding(crate::specs::Passes::entry_after))]
fn entry_after(count: u8, k: u8, b: Option<Rule>, e: Task) -> Task
    ensures { result ≡ entry_after count k (rule_number b) e }
{
    if count < k {
        return places::NO_TASK;
    }
    match b {
        Some(_) => slept(e),
        None => e,
    }
}

#[tactic(auto, using(crate::proofs::CodeTests::has_number), unfolding(crate::specs::Passes::mail_after))]
fn mail_after(count: u8, k: u8, b: Option<Rule>, x: Mail) -> Mail
    ensures { result ≡ mail_after count k (rule_number b) x }
{
    if k <= count && b.is_none() {
        return x;
    }
    messages::NO_MAIL
}

pub(crate) fn entries_after(count: u8, broken: [Option<Rule>; 16], tasks: [Task; 16]) -> [Task; 16]
    ensures { result ≡ entries_after count (numbers_of broken) tasks }
{
    array::from_fn(|i| entry_after(count, i as u8 + 1, broken[i], tasks[i]))
}

pub(crate) fn mails_after(count: u8, broken: [Option<Rule>; 16], mail: [Mail; 16]) -> [Mail; 16]
    ensures { result ≡ mails_after count (numbers_of broken) mail }
{
    array::from_fn(|i| mail_after(count, i as u8 + 1, broken[i], mail[i]))
}

// Whether nobody is inside subprogram m; past the last there is a free one.
fn is_free(subs: [Sub; 8], m: u8) -> bool
    ensures { result ≡ is_nobody (get_or subs m no_subprogram).holder }
{
    if 7 < m {
        return true;
    }
    subs[m as usize].holder.0 == 0
}

// Whether a task waits for a start or an end.
fn awaits_link(s: State) -> bool
    ensures { result ≡ awaits_link s }
{
    states::is_of(s, states::AWAIT_START) || states::is_of(s, states::AWAIT_END)
}

// Whether a waiter waits in vain: no link names it, or its subprogram is free.
#[tactic(auto, unfolding(crate::specs::Passes::is_lost))]
fn is_lost(subs: [Sub; 8], named: bool, s: State) -> bool
    ensures { result ≡ is_lost subs named s }
{
    if awaits_link(s) {
        return !named;
    }
    states::is_of(s, states::AWAIT_SUB) && is_free(subs, states::awaited_of(s))
}

#[tactic(auto, unfolding(crate::specs::Passes::waiter_after))]
fn waiter_after(subs: [Sub; 8], named: bool, e: Task) -> Task
    ensures { result ≡ waiter_after subs named e }
{
    if is_lost(subs, named, e.state) {
        return entries::with_state(e, State::Ready);
    }
    e
}

pub(crate) fn waiters_after(subs: [Sub; 8], named: [bool; 16], tasks: [Task; 16]) -> [Task; 16]
    ensures { result ≡ waiters_after subs named tasks }
{
    array::from_fn(|i| waiter_after(subs, named[i], tasks[i]))
}
