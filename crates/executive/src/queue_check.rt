// The check of a line, the ready queue's or a subprogram's: exactly the tasks in its state, once each, in descending
// priority.
ghost use Rattle.std.specs.Prelude.{◌≡◌, ◌≤◌, true, false, eqb, length, take, MatchOption};
ghost use Rattle.executive.specs.Lists.{one, up_to, all_of, ◌and◌};
ghost use Rattle.executive.specs.States.{is_as, is_ready};
ghost use Rattle.executive.specs.Table.{items, levels_of};
ghost use Rattle.executive.specs.Check.{is_nobody, is_task, falls, exact_at, line_right, Tallies};

use crate::{State, Task, levels, places, states};
use records::TaskNo;

// These places of a line are free.
pub(crate) fn all_nobody(places: &[TaskNo]) -> bool
    ensures { result ≡ all_of is_nobody places.now }
{
    places.iter().all(|k| k.0 == 0)
}

// A number that names one of so many tasks.
// The opposite of `no_such_task`, which is public: each has its own definition.
fn is_task(k: TaskNo, count: u8) -> bool
    ensures { result ≡ is_task count k }
{
    0 < k.0 && k.0 <= count
}

// The word of the levels of a line, where those in it are tasks, in descending priority.
#[tactic(auto, using(crate::proofs::check::Descent::descent, crate::proofs::check::Descent::words))]
fn descends(tasks: &[Task; 16], line: &[TaskNo], count: u8) -> Option<u16>
    ensures { MatchOption result (falls tasks.now count 15 line.now ≡ false)
        (λ w. (falls tasks.now count 15 line.now ≡ true) × (w ≡ levels_of (items tasks.now line.now))) }
{
    let mut p: u8 = 15;
    let mut word: u16 = 0;
    for k in line {
        if !is_task(*k, count) {
            return None;
        }
        let e = places::read_at(tasks, *k);
        if p < e.priority {
            return None;
        }
        p = e.priority;
        word |= levels::level_bit(p);
    }
    Some(word)
}

// How often each number from 1 to 16 stands in a line: that of k at place k - 1. Place 16 is for the numbers that no
// task can have.
#[tactic(auto, using(crate::proofs::check::Passes::tallies))]
fn tally(line: &[TaskNo]) -> [u8; 17]
    requires { length line.now ≤ 16 }
    ensures { Tallies result line.now }
{
    let mut counts = [0u8; 17];
    for x in line {
        counts[places::entry_place(*x)] += 1;
    }
    counts
}

// Whether a task that stands n times in a line stands there as often as its state says: once if it is of the line's
// kind and waits for its number, else never. A kind and a number, and no closure: `is_as` is stated of them.
#[tactic(auto, using(crate::proofs::Lists::Tests::bytes))]
fn exact_at(s: State, n: u8, kind: u8, number: u8) -> bool
    ensures { result ≡ eqb n (one (is_as kind number s)) }
{
    n == states::is_as(s, kind, number) as u8
}

// The line holds exactly those whose state is of a kind and waits for a number, once each.
fn all_exact(tasks: &[Task; 16], line: &[TaskNo], count: u8, kind: u8, number: u8) -> bool
    requires { (length line.now ≤ 16) × (count ≤ 16) }
    ensures { result ≡ up_to (exact_at (is_as kind number) tasks.now line.now) count }
{
    let counts = tally(line);
    tasks[..count as usize]
        .iter()
        .zip(&counts)
        .all(|(e, n)| exact_at(e.state, *n, kind, number))
}

// The word of the levels of a line, where it holds exactly those whose state is of a kind and waits for a number, once
// each, in descending priority, and its free places are zero.
fn line_word(
    tasks: &[Task; 16],
    line: &[TaskNo; 16],
    taken: u8,
    count: u8,
    kind: u8,
    number: u8,
) -> Option<u16>
    ensures { MatchOption result (line_right (is_as kind number) tasks.now count taken line.now ≡ false)
        (λ w. (line_right (is_as kind number) tasks.now count taken line.now ≡ true)
        × (w ≡ levels_of (items tasks.now (take taken line.now)))) }
{
    if 16 < count || 16 < taken {
        return None;
    }
    let n = taken as usize;
    let held = &line[..n];
    let word = descends(tasks, held, count)?;
    if all_exact(tasks, held, count, kind, number) && all_nobody(&line[n..]) {
        Some(word)
    } else {
        None
    }
}

// Whether a line holds exactly those; no word of a subprogram's line is kept.
pub(crate) fn line_right(
    tasks: &[Task; 16],
    line: &[TaskNo; 16],
    taken: u8,
    count: u8,
    kind: u8,
    number: u8,
) -> bool
    ensures { result ≡ line_right (is_as kind number) tasks.now count taken line.now }
{
    line_word(tasks, line, taken, count, kind, number).is_some()
}

// The ready queue is the line of the ready, and the word of the ready levels is theirs.
pub(crate) fn queue_right(
    tasks: &[Task; 16],
    queue: &[TaskNo; 16],
    ready: u8,
    count: u8,
    levels: u16,
) -> bool
    ensures { result ≡ (line_right is_ready tasks.now count ready queue.now
        and eqb levels (levels_of (items tasks.now (take ready queue.now)))) }
{
    line_word(tasks, queue, ready, count, states::READY, 0) == Some(levels)
}
