// The passes of a round, each on what the one before left: own entries, messages and requests, links, subprograms and
// alarms, waiters.
ghost use Rattle.std.specs.Prelude.{◌≡◌};
ghost use Rattle.mender.specs.Passes.{own_pass, queued_pass, sub_after, alarm_after, subs_after, alarms_after, held_pass, waiter_pass, link_pass};
ghost use Rattle.mender.specs.Rules.{numbers_of};
ghost use Rattle.mender.specs.Rounds.{settled};

use crate::links::Linked;
use crate::{Rule, closing, entries, links};
use executive::{Millis, Sub, Table, Task, rules};
use records::TaskNo;

// The first pass; `broken` has the own rule that each entry breaks.
#[tactic(auto, unfolding(crate::specs::Passes::own_pass))]
fn own_pass(mut t: Table, broken: [Option<Rule>; 16]) -> Table
    ensures { result ≡ own_pass (numbers_of broken) t }
{
    let count = t.rest.count;
    t.tasks = entries::entries_after(count, broken, t.tasks);
    t.rest.mail = entries::mails_after(count, broken, t.rest.mail);
    t
}

// The second pass.
#[tactic(auto, unfolding(crate::specs::Passes::queued_pass))]
fn queued_pass(mut t: Table) -> Table
    ensures { result ≡ queued_pass t }
{
    let count = t.rest.count;
    let kept = closing::kept_requests(t.tasks, count, t.rest.pool);
    let posted = closing::kept_messages(count, t.rest.messages);
    let pool = kept.places;
    let messages = posted.places;
    t.rest.pool = pool;
    t.rest.queued = kept.taken;
    t.rest.messages = messages;
    t.rest.sent = posted.taken;
    t
}

// The subprogram, freed where its holder is not busy.
fn sub_after(tasks: [Task; 16], count: u8, mut s: Sub) -> Sub
    ensures { result ≡ sub_after count tasks s }
{
    if !entries::is_busy(tasks, count, s.holder) {
        s.holder = TaskNo(0);
    }
    s
}

fn alarm_after(now: Millis, a: Millis) -> Millis
    ensures { result ≡ alarm_after now.0 a }
{
    if rules::alarm_right(a, now) {
        return a;
    }
    Millis(0)
}

fn subs_after(tasks: [Task; 16], count: u8, subs: [Sub; 8]) -> [Sub; 8]
    ensures { result ≡ subs_after count tasks subs }
{
    subs.map(|s| sub_after(tasks, count, s))
}

fn alarms_after(now: Millis, alarms: [Millis; 32]) -> [Millis; 32]
    ensures { result ≡ alarms_after now.0 alarms }
{
    alarms.map(|a| alarm_after(now, a))
}

// The fourth pass.
#[tactic(auto, unfolding(crate::specs::Passes::held_pass))]
fn held_pass(mut t: Table) -> Table
    ensures { result ≡ held_pass t }
{
    t.rest.subs = subs_after(t.tasks, t.rest.count, t.rest.subs);
    t.rest.alarms = alarms_after(t.rest.clock, t.rest.alarms);
    t
}

// The fifth pass; `named` has who is named by a link.
#[tactic(auto, unfolding(crate::specs::Passes::waiter_pass))]
fn waiter_pass(mut t: Table, named: [bool; 16]) -> Table
    ensures { result ≡ waiter_pass named t }
{
    t.tasks = entries::waiters_after(t.rest.subs, named, t.tasks);
    t
}

// The last two passes, with what the links left.
#[tactic(auto, unfolding(crate::specs::Rounds::settled))]
fn settle(l: Linked) -> Table
    ensures { result ≡ settled l }
{
    waiter_pass(held_pass(l.table), l.named)
}

// A round; `broken` has the own rule that each entry breaks.
pub(crate) fn round(t: Table, broken: [Option<Rule>; 16]) -> Table
    ensures { result ≡ settled (link_pass (queued_pass (own_pass (numbers_of broken) t))) }
{
    let queued = queued_pass(own_pass(t, broken));
    settle(links::link_pass(queued))
}
