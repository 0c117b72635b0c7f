// Executing a deed: the caller leaves, the rest changes, tasks enter one after the other. It decides nothing.
ghost use Rattle.std.specs.Prelude.{◌≡◌};
ghost use Rattle.executive.specs.Table.{ArraysInOrder, FindsRoom, InFlight, line, view, levels_of, relit, left?, depart};
ghost use Rattle.executive.specs.Table.{with_rest, begin, enter_all_in_flight, lit_in_flight, apply_in_flight};
ghost use Rattle.executive.specs.States.{is_ready};
ghost use Rattle.executive.specs.WellFormed.{Line};
ghost use Rattle.executive.specs.Pool.{PoolInOrder};
ghost use Rattle.executive.specs.Messages.{no_mail, with_mail};
ghost use Rattle.executive.specs.Decisions.{named, out_for, joins_for, alters, changed, meant, Able, Doable};

use crate::decisions::{Change, Deed, Entrants, Leave};
use crate::{Millis, Request, Rest, Table, Work, messages};
use records::TaskNo;

// Whether the caller leaves.
pub fn leaves(how: Leave) -> bool
    ensures { result ≡ left? (out_for how) }
{
    match how {
        Leave::Stays => false,
        _ => true,
    }
}

// Whether the rest changes at all.
fn alters(change: Change) -> bool
    ensures { result ≡ alters change }
{
    match change {
        Change::Same => false,
        _ => true,
    }
}

impl Rest {
    // The rest after a change.
    pub(crate) fn changed(mut self, change: Change, q: Request) -> Rest
        requires { PoolInOrder self × Able change self }
        ensures { result ≡ changed change q self }
    {
        match change {
            Change::Same => self,
            Change::Flags(flags) => self.with_flags(flags),
            Change::Alarm(f, at) => self.with_alarm(f, at),
            Change::Put => self.with_request(q),
            Change::Taken(i) => self.without(i),
            Change::Clock(first) => self.advance(first),
            Change::Held(m, k) => self.with_holder(m, k),
            Change::Lined(m, k, at) => self.with_waiter(m, k, at),
            Change::HandedOn(m) => self.handed_on(m),
            Change::Posted(m, at) => self.with_letter(m, at),
            Change::Delivered(k, x) => self.with_mail(k, x),
            Change::HandedOut(i) => self.without_letter(i),
        }
    }
}

impl Work {
    // Those who are listed enter, in order.
    fn enter_all(mut self, list: Entrants, q: Request, now: Millis) -> Work
        requires { InFlight list.count self × FindsRoom (joins_for q now (named list)) self.table }
        ensures { result ≡ lit_in_flight (enter_all_in_flight (joins_for q now (named list)) self) }
    {
        for x in &list.places[..list.count as usize] {
            self = self.enter(x.who, x.how, q, now);
        }
        self
    }
}

impl Table {
    // The mail of a task is gone; 0 names nobody.
    fn emptied(mut self, k: TaskNo) -> Table
        ensures { result ≡ with_rest (with_mail k.0 no_mail self.rest) self }
    {
        if k.0 != 0 {
            self.rest = self.rest.with_mail(k, messages::NO_MAIL);
        }
        self
    }

    // The rest of the table changes, if it is to, and the mail of a task is gone; 0 names nobody.
    fn changed(mut self, change: Change, q: Request, k: TaskNo) -> Table
        requires { PoolInOrder self.rest × Able change self.rest }
        ensures { result ≡ with_rest (with_mail k.0 no_mail (changed change q self.rest)) self }
    {
        if alters(change) {
            self.rest = self.rest.changed(change, q);
        }
        self.emptied(k)
    }

    // The caller leaves, if it is to.
    fn left(mut self, how: Leave) -> Table
        requires { ArraysInOrder self × Line is_ready self.tasks (line self)
            × (self.levels ≡ levels_of (view self)) }
        ensures { result ≡ relit (depart (out_for how) self) }
    {
        if leaves(how) { self.depart(how) } else { self }
    }

    // Those who are listed enter, in order.
    fn entered_by(self, list: Entrants, q: Request, now: Millis) -> Work
        requires { InFlight list.count (begin self) × FindsRoom (joins_for q now (named list)) self }
        ensures { result ≡ lit_in_flight (enter_all_in_flight (joins_for q now (named list)) (begin self)) }
    {
        self.begin().enter_all(list, q, now)
    }

    // What is to be done is done. The rest changes before anybody enters, while no count is carried beside the table:
    // who enters looks at no rest.
    pub(crate) fn execute(mut self, d: Deed) -> Work
        requires { Doable d self }
        ensures { result ≡ apply_in_flight (meant d self) self }
    {
        let now = self.rest.clock;
        let t = self.left(d.leave).changed(d.change, d.request, d.empties);
        t.entered_by(d.entrants, d.request, now)
    }
}
