// Executing a deed: the chosen task leaves, tasks enter one after the other, the rest is replaced. It decides nothing.
ghost use Rattle.std.specs.Prelude.{◌≡◌, ◌≤◌, length};
ghost use Rattle.executive.specs.Decisions.{out_for, joins_for};
ghost use Rattle.scan.specs.Moves.{depart_scan, enter_all_scan, apply_scan};
ghost use Rattle.scan.specs.Step.{plan_to};

use crate::{Scanned, Work};
use executive::decisions::{Deed, Entrant, Leave};
use executive::{Millis, Request, Rest, executing};

impl Work {
    // Those who are listed enter, in order.
    fn enter_all(mut self, entrants: &[Entrant], q: Request, now: Millis) -> Work
        requires { (length entrants.now ≤ 16) × (self.walked ≡ 0) }
        ensures { result ≡ enter_all_scan (joins_for q now entrants.now) self }
    {
        for x in entrants {
            self = self.enter(x.who, x.how, q, now);
        }
        self
    }
}

impl Scanned {
    // The chosen task leaves, if it is to.
    fn left(self, how: Leave) -> Scanned
        ensures { result ≡ depart_scan (out_for how) self }
    {
        if executing::leaves(how) {
            return self.depart(how);
        }
        self
    }

    // What is to be done is done; the rest after it was given with it.
    pub(crate) fn execute(self, d: Deed, rest: Rest) -> Work
        requires { d.entrants.count ≤ 16 }
        ensures { result ≡ apply_scan (plan_to d rest self) self }
    {
        let work = Work {
            table: self.left(d.leave),
            walked: 0,
        };
        let entrants = &d.entrants.places[..d.entrants.count as usize];
        let mut done = work.enter_all(entrants, d.request, self.rest.clock);
        done.table.rest = rest;
        done
    }
}
