// Kinds 00 to 03 and 80, a function for each: what it decides of a call, as its sheet says.
ghost use Rattle.std.specs.Prelude.{◌≡◌, false, not, cond, ◌||◌, ◌+◌, ◌/◌, ◌%◌, ◌≤◌, eqb, ltb};
ghost use Rattle.executive.specs.Numbers.{last_unit, end_of_time};
ghost use Rattle.executive.specs.States.{is_paused};
ghost use Rattle.executive.specs.Decisions.{AllUnmet, AllRests, anew_deed, sleep_deed, terminate_deed, restart_deed, pause_deed, cancel_pause_deed, tick_deed, refusing, doing};
ghost use Rattle.executive.specs.Sheet.{only_z, restart_marks};

use crate::decisions::{Change, Decision, Deed, How, Leave};
use crate::{
    Millis, Request, State, Task, answers, clock, decisions, places, pool, refusals, states, waking,
};
use records::{Refusal, TaskNo};

// Kind 00 with the earliest request q for the caller, at place i: whoever waits for the end, w, enters, then the caller
// with that request, then whoever waited for that start.
pub fn begins_anew(w: TaskNo, c: TaskNo, q: Request, i: usize) -> Decision
    ensures { result ≡ doing (only_z false) (anew_deed w c q i) }
{
    let marks = answers::only_z(false);
    let l1 = decisions::only_woken(w);
    let l2 = l1.also(c, How::Begun);
    let entrants = l2.woken(q.start_waiter);
    let deed = Deed {
        leave: Leave::Sleeps,
        entrants,
        request: q,
        change: Change::Taken(i),
        empties: c,
    };
    decisions::accepted(marks, deed)
}

// Kind 00 with no request for the caller: whoever waits for the end enters.
pub fn sleeps(w: TaskNo, c: TaskNo) -> Decision
    ensures { result ≡ doing (only_z false) (sleep_deed w c) }
{
    let marks = answers::only_z(false);
    let entrants = decisions::only_woken(w);
    let deed = Deed {
        leave: Leave::Sleeps,
        entrants,
        request: pool::NO_REQUEST,
        change: Change::Same,
        empties: c,
    };
    decisions::accepted(marks, deed)
}

// Kind 00.
pub(crate) fn terminate(
    tasks: &[Task; 16],
    requests: &[Request],
    c: TaskNo,
    holding: bool,
) -> Decision
    ensures { result ≡ cond holding (refusing 15) (doing (only_z false) (terminate_deed tasks.now requests.now c)) }
{
    if holding {
        return decisions::refuse(Refusal::StillHeld);
    }
    let w = places::read_at(tasks, c).end_waiter;
    match pool::first_for(requests, c) {
        Some(i) => begins_anew(w, c, requests[i], i),
        None => sleeps(w, c),
    }
}

// Kind 01: the caller is due at the time aimed at, and enters at once where that has come. Where the clock is past its
// end, or before the start of the run, there is no such table.
pub fn restart(old: Task, now: Millis, c: TaskNo, holding: bool, param: u8, count: u8) -> Decision
    ensures { result ≡ cond (ltb end_of_time now.0 || ltb now.0 old.start.0) (refusing 1) (cond (eqb (param / 64 % 4) 3) (refusing 6)
        (cond holding (refusing 15) (doing (restart_marks old.start now param count) (restart_deed c old now param count)))) }
{
    if clock::END_OF_TIME < now.0 {
        return decisions::refuse(Refusal::NoTable);
    }
    let start = old.start;
    if now.0 < start.0 {
        return decisions::refuse(Refusal::NoTable);
    }
    if param / 64 % 4 == 3 {
        return decisions::refuse(Refusal::OutOfRange);
    }
    if holding {
        return decisions::refuse(Refusal::StillHeld);
    }
    let aim = clock::aim_of(start, now, param, count);
    let at = aim.at;
    let marks = answers::restart_marks(param, aim.skipped);
    let l1 = decisions::only_woken(old.end_waiter);
    let entrants = l1.raised(at.0 <= now.0, c);
    let deed = Deed {
        leave: Leave::DueAt(at),
        entrants,
        request: pool::NO_REQUEST,
        change: Change::Same,
        empties: c,
    };
    decisions::accepted(marks, deed)
}

// Kind 02. Where the clock is past its end, there is no such table.
pub fn pause(now: Millis, unit: u8, count: u8) -> Decision
    ensures { result ≡ cond (ltb end_of_time now.0) (refusing 1)
        (cond (ltb last_unit unit) (refusing 6) (doing (only_z (eqb count 0)) (pause_deed now unit count))) }
{
    if clock::END_OF_TIME < now.0 {
        return decisions::refuse(Refusal::NoTable);
    }
    if clock::LAST_UNIT < unit {
        return decisions::refuse(Refusal::OutOfRange);
    }
    if count == 0 {
        let z = answers::only_z(true);
        let still = decisions::nothing();
        return decisions::accepted(z, still);
    }
    let wait = clock::millis_of(unit, count);
    let until = Millis(now.0 + wait.0);
    let marks = answers::only_z(false);
    let deed = decisions::alone(Leave::As(State::Paused(until)), Change::Same);
    decisions::accepted(marks, deed)
}

// Kind 03: only a paused task enters, not a due one.
pub fn cancel_pause(e: Task, count: u8, k: TaskNo) -> Decision
    ensures { result ≡ cond (eqb k.0 0 || ltb count k.0) (refusing 6) (doing (only_z (not (is_paused e.state))) (cancel_pause_deed e.state k)) }
{
    if refusals::no_such_task(count, k) {
        return decisions::refuse(Refusal::OutOfRange);
    }
    let s = e.state;
    if states::is_paused(s) {
        let marks = answers::only_z(false);
        let l = decisions::none();
        let entrants = l.also(k, How::Risen);
        let deed = Deed {
            leave: Leave::Stays,
            entrants,
            request: pool::NO_REQUEST,
            change: Change::Same,
            empties: TaskNo(0),
        };
        return decisions::accepted(marks, deed);
    }
    let z = answers::only_z(true);
    let still = decisions::nothing();
    decisions::accepted(z, still)
}

// Kind 80: the first alarm that is due is looked for once, and told with the deed.
pub(crate) fn tick(
    tasks: &[Task; 16],
    alarms: &[Millis; 32],
    clock: Millis,
    granule: u8,
    flags: u32,
) -> Decision
    requires { (clock.0 ≤ end_of_time) × AllUnmet flags tasks.now }
    ensures { AllRests alarms.now clock granule flags
        (λ q. result ≡ cond (ltb end_of_time (clock.0 + granule)) (refusing 10) (doing (only_z false) (tick_deed tasks.now q))) }
{
    let length = clock::granule_of(granule);
    let now = Millis(clock.0 + length.0);
    if clock::END_OF_TIME < now.0 {
        return decisions::refuse(Refusal::EndOfTime);
    }
    let first = clock::first_due(alarms, now);
    let more = clock::rings(alarms, flags, first, now);
    let marks = answers::only_z(false);
    let entrants = waking::woken(tasks, now, flags, more);
    let deed = Deed {
        leave: Leave::Stays,
        entrants,
        request: pool::NO_REQUEST,
        change: Change::Clock(first),
        empties: TaskNo(0),
    };
    decisions::accepted(marks, deed)
}
