// The passes of the check over the entries, the alarms and the pool, each by the rules on one of them.
ghost use Rattle.std.specs.Prelude.{◌≡◌};
ghost use Rattle.executive.specs.Lists.{all_of};
ghost use Rattle.executive.specs.Check.{is_blank, alarm_right, is_free, entry_right, request_right};

use crate::{Millis, Request, Task, places, rules, states};

// All entries keep the rules on one entry, in one pass.
pub(crate) fn entries_right(tasks: &[Task], count: u8, now: Millis, flags: u32) -> bool
    ensures { result ≡ all_of (entry_right count now.0 flags) tasks.now }
{
    tasks
        .iter()
        .all(|e| rules::entry_right(*e, count, now, flags))
}

// These entries are zero.
pub(crate) fn all_blank(tasks: &[Task]) -> bool
    ensures { result ≡ all_of is_blank tasks.now }
{
    tasks.iter().all(|e| rules::is_blank(*e))
}

// These places of the pool are zero: all numbers of the requests, put together, and all their arguments, are 0. It
// stops at none of them, so that the compiler can take many at a time.
#[tactic(auto, using(crate::proofs::check::PutTogether::put_together))]
pub(crate) fn all_free(places: &[Request]) -> bool
    ensures { result ≡ all_of is_free places.now }
{
    let mut numbers: u8 = 0;
    let mut arguments: u16 = 0;
    for q in places {
        numbers |= q.target.0 | q.priority | q.start_waiter.0 | q.end_waiter.0;
        arguments |= q.argument;
    }
    numbers == 0 && arguments == 0
}

// A queued request keeps the rules on one request, and names a busy task only.
fn request_right(tasks: &[Task; 16], q: Request, count: u8) -> bool
    ensures { result ≡ request_right tasks.now count q }
{
    rules::request_fits(q, count) && !states::is_dormant(places::read_at(tasks, q.target).state)
}

// All queued requests keep the rules on one request, and name busy tasks only; in one pass.
pub(crate) fn requests_right(tasks: &[Task; 16], asked: &[Request], count: u8) -> bool
    ensures { result ≡ all_of (request_right tasks.now count) asked.now }
{
    asked.iter().all(|q| request_right(tasks, *q, count))
}

pub(crate) fn all_alarms(alarms: &[Millis], now: Millis) -> bool
    ensures { result ≡ all_of (alarm_right now.0) alarms.now }
{
    alarms.iter().all(|a| rules::alarm_right(*a, now))
}
