// The check of the subprograms: their numbers, their holders, their lines.
ghost use Rattle.std.specs.Prelude.{◌≡◌, not, ◌≤◌, eqb, ltb};
ghost use Rattle.executive.specs.Lists.{all_of, up_to, ◌and◌};
ghost use Rattle.executive.specs.Check.{is_free_sub, awaits_any, waits_for_none};
ghost use Rattle.executive.specs.Check.{holder_right, sub_in_range, sub_right, held_right};

use crate::{State, Sub, Task, places, queue_check, states};

// All numbers of a subprogram, put together with those before: 0 exactly where they are 0, and so it is free and nobody
// waits. It stops at none of them, so that the compiler can take many at a time.
#[tactic(auto, using(crate::proofs::check::PutTogether::put_together))]
fn with_all(before: u8, s: &Sub) -> u8
    ensures { eqb result 0 ≡ (eqb before 0 and is_free_sub s.now) }
{
    let mut all = before | s.holder.0 | s.waiting;
    for k in &s.line {
        all |= k.0;
    }
    all
}

// All are free, and nobody waits for one: one pass over their bytes.
#[tactic(auto, using(crate::proofs::check::PutTogether::one_by_one))]
fn all_free(subs: &[Sub; 8]) -> bool
    ensures { result ≡ all_of is_free_sub subs.now }
{
    let mut all: u8 = 0;
    for s in subs {
        all = with_all(all, s);
    }
    all == 0
}

// Whether a state is that of waiting for one of 0 to 7.
fn awaits_any(s: State) -> bool
    ensures { result ≡ awaits_any s }
{
    states::is_of(s, states::AWAIT_SUB) && states::awaited_of(s) <= 7
}

// None waited so far, nor does the task at place k, whose state this is, if it is one of so many.
fn still_none(none: bool, s: State, k: usize, count: u8) -> bool
    ensures { result ≡ (none and not (ltb k count and awaits_any s)) }
{
    none && (count as usize <= k || !awaits_any(s))
}

// None of the tasks 1 to count waits for one of them. All sixteen entries are passed, so that the compiler reads them
// where they lie.
#[tactic(auto, using(crate::proofs::check::Subprograms::one_by_one))]
fn none_waits(tasks: &[Task; 16], count: u8) -> bool
    requires { count ≤ 16 }
    ensures { result ≡ up_to (waits_for_none tasks.now) count }
{
    let mut none = true;
    for (k, e) in tasks.iter().enumerate() {
        none = still_none(none, e.state, k, count);
    }
    none
}

// A holder is busy; a free one has no waiters.
fn holder_right(tasks: &[Task; 16], s: &Sub) -> bool
    ensures { result ≡ holder_right tasks.now s.now }
{
    if s.holder.0 == 0 {
        return s.waiting == 0;
    }
    !states::is_dormant(places::read_at(tasks, s.holder).state)
}

// Subprogram m: its numbers are in range, and it keeps the rule.
fn sub_right(tasks: &[Task; 16], s: &Sub, m: u8, count: u8) -> bool
    ensures { result ≡ (sub_in_range count s.now and sub_right tasks.now count m s.now) }
{
    s.holder.0 <= count
        && s.waiting <= 16
        && holder_right(tasks, s)
        && queue_check::line_right(tasks, &s.line, s.waiting, count, states::AWAIT_SUB, m)
}

// Each subprogram keeps its rules.
#[tactic(auto, using(crate::proofs::check::Subprograms::one_by_one))]
fn each_right(tasks: &[Task; 16], subs: &[Sub; 8], count: u8) -> bool
    ensures { result ≡ held_right tasks.now count subs.now }
{
    for (m, s) in subs.iter().enumerate() {
        if !sub_right(tasks, s, m as u8, count) {
            return false;
        }
    }
    true
}

// The subprograms keep their rules. Where all are free and nobody waits there is nothing to count.
#[tactic(auto, using(crate::proofs::check::Subprograms::one_by_one))]
pub(crate) fn subs_right(tasks: &[Task; 16], subs: &[Sub; 8], count: u8) -> bool
    requires { count ≤ 16 }
    ensures { result ≡ held_right tasks.now count subs.now }
{
    if all_free(subs) {
        return none_waits(tasks, count);
    }
    each_right(tasks, subs, count)
}
