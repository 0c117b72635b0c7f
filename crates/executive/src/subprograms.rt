// The controlled subprograms: kinds 06 and 07, a function for each, and what a call makes of one.
ghost use Rattle.std.specs.Prelude.{◌≡◌, false, not, cond, ◌<◌, ◌≤◌, ltb, get_or};
ghost use Rattle.executive.specs.Numbers.{last_sub, sub_count, most_tasks};
ghost use Rattle.executive.specs.Places.{task_at};
ghost use Rattle.executive.specs.Table.{ahead_of};
ghost use Rattle.executive.specs.Subprograms.{no_subprogram, sub_at, line_of, LineInOrder, holds?, holds_any_of, enters_it, joins_line, put_in, handed_on, with_sub};
ghost use Rattle.executive.specs.Decisions.{enter_deed, exit_deed, refusing, doing};
ghost use Rattle.executive.specs.Sheet.{only_z};

use crate::decisions::{Change, Decision, Deed, Leave};
use crate::{Rest, State, Sub, Task, answers, decisions, lines, places, pool, queue};
use records::{Refusal, SubNo, TaskNo};

// A free one, for which nobody waits.
pub(crate) const NO_SUB: Sub = Sub {
    holder: TaskNo(0),
    line: [TaskNo(0); 16],
    waiting: 0,
};

// Whether a task holds any of them.
pub(crate) fn holds_any(subs: &[Sub], k: TaskNo) -> bool
    ensures { result ≡ holds_any_of k subs.now }
{
    subs.iter().any(|s| k == s.holder)
}

// Subprogram m; past the last there is a free one.
pub(crate) fn sub_at(subs: &[Sub], m: SubNo) -> Sub
    ensures { result ≡ get_or subs.now m.0 no_subprogram }
{
    let i = m.0 as usize;
    if i < subs.len() { subs[i] } else { NO_SUB }
}

// Kind 06: the caller gets in, or departs and waits behind all of equal or higher priority.
pub(crate) fn enter(tasks: &[Task; 16], s: Sub, c: TaskNo, m: SubNo) -> Decision
    requires { s.waiting ≤ most_tasks }
    ensures { result ≡ cond (ltb last_sub m.0) (refusing 6)
        (cond (holds? c s) (refusing 13)
        (doing (only_z false) (enter_deed c (ahead_of tasks.now (task_at tasks.now c.0).priority (line_of s)) m s))) }
{
    if 7 < m.0 {
        return decisions::refuse(Refusal::OutOfRange);
    }
    if c == s.holder {
        return decisions::refuse(Refusal::HeldAlready);
    }
    let marks = answers::only_z(false);
    if s.holder.0 == 0 {
        let gets_in = decisions::alone(Leave::Stays, Change::Held(m, c));
        return decisions::accepted(marks, gets_in);
    }
    let e = places::read_at(tasks, c);
    let line = s.line;
    let at = queue::ahead(tasks, &line[..s.waiting as usize], e.priority);
    let waits = decisions::alone(Leave::As(State::AwaitSub(m)), Change::Lined(m, c, at));
    decisions::accepted(marks, waits)
}

// Kind 07: the first of the line gets in and enters the ready queue.
pub(crate) fn exit(s: Sub, c: TaskNo, m: SubNo) -> Decision
    ensures { result ≡ cond (ltb last_sub m.0) (refusing 6)
        (cond (not (holds? c s)) (refusing 14) (doing (only_z false) (exit_deed m s))) }
{
    if 7 < m.0 {
        return decisions::refuse(Refusal::OutOfRange);
    }
    if c != s.holder {
        return decisions::refuse(Refusal::NotHeld);
    }
    let marks = answers::only_z(false);
    let line = s.line;
    let w = queue::first(line, s.waiting);
    let entrants = decisions::only_woken(w);
    let deed = Deed {
        leave: Leave::Stays,
        entrants,
        request: pool::NO_REQUEST,
        change: Change::HandedOn(m),
        empties: TaskNo(0),
    };
    decisions::accepted(marks, deed)
}

impl Sub {
    // Task k waits at a place of the line.
    fn joined(mut self, k: TaskNo, at: usize) -> Sub
        requires { LineInOrder self × (at ≤ self.waiting) × (self.waiting < 16) }
        ensures { result ≡ joins_line at k self }
    {
        self.line = lines::slid(self.line, at, self.waiting as usize, k);
        self.waiting += 1;
        self
    }

    // Task k is put at a place of any line; one that is full, or that ends before that place, stays as it is.
    pub fn put_in(mut self, k: TaskNo, at: usize) -> Sub
        ensures { result ≡ put_in at k self }
    {
        let n = self.waiting as usize;
        if n < 16 && at <= n {
            self.line = lines::slid(self.line, at, n, k);
            self.waiting += 1;
        }
        self
    }

    // The first of the line gets in, or nobody.
    fn passed_on(mut self) -> Sub
        requires { LineInOrder self }
        ensures { result ≡ handed_on self }
    {
        let n = self.waiting;
        let w = queue::first(self.line, n);
        self.holder = w;
        if n != 0 {
            self.line = lines::closed_at(self.line, TaskNo(0), 0);
            self.waiting = n - 1;
        }
        self
    }
}

impl Rest {
    // The rest with subprogram m as it is now.
    fn with_sub(mut self, m: SubNo, s: Sub) -> Rest
        requires { m.0 < sub_count }
        ensures { result ≡ with_sub m.0 s self }
    {
        self.subs[m.0 as usize] = s;
        self
    }

    // Task k gets into subprogram m.
    pub(crate) fn with_holder(self, m: SubNo, k: TaskNo) -> Rest
        requires { m.0 < sub_count }
        ensures { result ≡ with_sub m.0 (enters_it k (sub_at self m.0)) self }
    {
        let mut s = sub_at(&self.subs, m);
        s.holder = k;
        self.with_sub(m, s)
    }

    // Task k joins its line.
    pub(crate) fn with_waiter(self, m: SubNo, k: TaskNo, at: usize) -> Rest
        requires { (m.0 < sub_count) × LineInOrder (sub_at self m.0) × (at ≤ (sub_at self m.0).waiting)
            × ((sub_at self m.0).waiting < most_tasks) }
        ensures { result ≡ with_sub m.0 (joins_line at k (sub_at self m.0)) self }
    {
        let s = sub_at(&self.subs, m);
        self.with_sub(m, s.joined(k, at))
    }

    // Its holder gets out.
    pub(crate) fn handed_on(self, m: SubNo) -> Rest
        requires { (m.0 < sub_count) × LineInOrder (sub_at self m.0) }
        ensures { result ≡ with_sub m.0 (handed_on (sub_at self m.0)) self }
    {
        let s = sub_at(&self.subs, m);
        self.with_sub(m, s.passed_on())
    }
}
