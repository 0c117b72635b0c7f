// Starting a task, and queueing a start: what the option says, the request, kinds 04 and 05.
ghost use Rattle.std.specs.Prelude.{◌≡◌, not, cond, ◌||◌, ◌/◌, ◌%◌, leb, eqb, ltb};
ghost use Rattle.executive.specs.Numbers.{most_queued};
ghost use Rattle.executive.specs.Lists.{◌and◌};
ghost use Rattle.executive.specs.Plans.{priority_of, wait_of, argument_of, at_once, start_waiter_of, end_waiter_of, asks};
ghost use Rattle.executive.specs.States.{is_dormant};
ghost use Rattle.executive.specs.Decisions.{leave_of, start_now_deed, queue_request_deed, start_if_dormant_deed, start_or_queue_deed, refusing, doing};
ghost use Rattle.executive.specs.Sheet.{only_z};

use crate::decisions::{Change, Decision, Deed, How, Leave};
use crate::{AwaitedMoment, Request, State, Task, answers, decisions, refusals, states};
use records::{Refusal, TaskNo};

// The priority that an option of 04 or 05 asks for: the target's own (bit 7), or bits 3..0.
pub(crate) fn priority_of(option: u8, own: u8) -> u8
    ensures { result ≡ priority_of option own }
{
    if option < 128 {
        return option % 16;
    }
    own
}

// What the caller of 05 waits for: the run's end (bit 6), its start (bit 5).
pub(crate) fn wait_of(option: u8) -> AwaitedMoment
    ensures { result ≡ wait_of option }
{
    if option / 64 % 2 == 1 {
        return AwaitedMoment::ForEnd;
    }
    if option / 32 % 2 == 1 {
        return AwaitedMoment::ForStart;
    }
    AwaitedMoment::ForNothing
}

// The argument that 05 gives: none (bit 4) is 0.
pub(crate) fn argument_of(option: u8, argument: u16) -> u16
    ensures { result ≡ argument_of option argument }
{
    if option / 16 % 2 == 1 {
        return 0;
    }
    argument
}

// Who waits for a request's start, and who for the end of its run: its caller, or nobody.
// Two functions, as the definitions `start_waiter_of` and `end_waiter_of` are two.
pub(crate) fn start_waiter_of(wt: AwaitedMoment, c: TaskNo) -> TaskNo
    ensures { result ≡ start_waiter_of wt c }
{
    match wt {
        AwaitedMoment::ForNothing => TaskNo(0),
        AwaitedMoment::ForStart => c,
        AwaitedMoment::ForEnd => TaskNo(0),
    }
}

pub(crate) fn end_waiter_of(wt: AwaitedMoment, c: TaskNo) -> TaskNo
    ensures { result ≡ end_waiter_of wt c }
{
    match wt {
        AwaitedMoment::ForNothing => TaskNo(0),
        AwaitedMoment::ForStart => TaskNo(0),
        AwaitedMoment::ForEnd => c,
    }
}

pub(crate) fn at_once(wt: AwaitedMoment) -> AwaitedMoment
    ensures { result ≡ at_once wt }
{
    match wt {
        AwaitedMoment::ForNothing => AwaitedMoment::ForNothing,
        AwaitedMoment::ForStart => AwaitedMoment::ForNothing,
        AwaitedMoment::ForEnd => AwaitedMoment::ForEnd,
    }
}

// How a caller leaves that waits so.
fn leave_of(wt: AwaitedMoment) -> Leave
    ensures { result ≡ leave_of wt }
{
    match wt {
        AwaitedMoment::ForNothing => Leave::Stays,
        AwaitedMoment::ForStart => Leave::As(State::AwaitStart),
        AwaitedMoment::ForEnd => Leave::As(State::AwaitEnd),
    }
}

// The request that caller c makes for task k, whose own priority is given.
fn request(c: TaskNo, wt: AwaitedMoment, k: TaskNo, priority: u8, argument: u16) -> Request
    ensures { result ≡ asks c wt k priority argument }
{
    let start_waiter = start_waiter_of(wt, c);
    let end_waiter = end_waiter_of(wt, c);
    Request {
        target: k,
        priority,
        argument,
        start_waiter,
        end_waiter,
    }
}

// A dormant target starts now.
fn start_now(q: Request, wt: AwaitedMoment) -> Deed
    ensures { result ≡ start_now_deed q wt }
{
    let o = at_once(wt);
    let leave = leave_of(o);
    let l = decisions::none();
    let k = q.target;
    let entrants = l.also(k, How::Begun);
    Deed {
        leave,
        entrants,
        request: q,
        change: Change::Same,
        empties: TaskNo(0),
    }
}

// A busy target is asked for later.
fn start_later(q: Request, wt: AwaitedMoment) -> Deed
    ensures { result ≡ queue_request_deed q wt }
{
    let leave = leave_of(wt);
    let entrants = decisions::none();
    Deed {
        leave,
        entrants,
        request: q,
        change: Change::Put,
        empties: TaskNo(0),
    }
}

// Kind 04.
pub fn start_if_dormant(e: Task, count: u8, c: TaskNo, option: u8, k: TaskNo) -> Decision
    ensures { result ≡ cond ((eqb k.0 0 || ltb count k.0) || not (eqb (option / 16 % 8) 0)) (refusing 6)
        (doing (only_z (not (is_dormant e.state))) (start_if_dormant_deed c e option k)) }
{
    if refusals::bad_start(count, option, k) {
        return decisions::refuse(Refusal::OutOfRange);
    }
    let s = e.state;
    if states::is_dormant(s) {
        let priority = priority_of(option, e.own);
        let q = request(c, AwaitedMoment::ForNothing, k, priority, 0);
        let marks = answers::only_z(false);
        let deed = start_now(q, AwaitedMoment::ForNothing);
        return decisions::accepted(marks, deed);
    }
    let z = answers::only_z(true);
    let still = decisions::nothing();
    decisions::accepted(z, still)
}

// Kind 05.
pub fn start_or_queue(
    e: Task,
    count: u8,
    queued: u8,
    c: TaskNo,
    option: u8,
    k: TaskNo,
    argument: u16,
) -> Decision
    ensures { result ≡ cond ((eqb k.0 0 || ltb count k.0) || eqb (option / 32 % 4) 3) (refusing 6)
        (cond (eqb k.0 c.0 and not (eqb (option / 32 % 4) 0)) (refusing 7)
        (cond (not (is_dormant e.state) and leb most_queued queued) (refusing 8)
        (doing (only_z (not (is_dormant e.state))) (start_or_queue_deed c e option k argument)))) }
{
    if refusals::bad_queue(count, option, k) {
        return decisions::refuse(Refusal::OutOfRange);
    }
    if refusals::names_caller(c, option, k) {
        return decisions::refuse(Refusal::NamesCaller);
    }
    let s = e.state;
    let wt = wait_of(option);
    let a = argument_of(option, argument);
    let priority = priority_of(option, e.own);
    let q = request(c, wt, k, priority, a);
    if states::is_dormant(s) {
        let marks = answers::only_z(false);
        let deed = start_now(q, wt);
        return decisions::accepted(marks, deed);
    }
    if 32 <= queued {
        return decisions::refuse(Refusal::QueueFull);
    }
    let z = answers::only_z(true);
    let later = start_later(q, wt);
    decisions::accepted(z, later)
}
