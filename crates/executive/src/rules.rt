// The rules on one thing alone: on an entry, a wait mask, a request, an alarm, the counts and the clock. Public, since
// an engine or a mender asks the same rules.
ghost use Rattle.std.specs.Prelude.{◌≡◌, ◌<◌};
ghost use Rattle.executive.specs.Check.{in_bounds, awaits_in_range, numbers_in_range, entry_in_range, is_zero, is_blank, request_in_range};
ghost use Rattle.executive.specs.Check.{is_stored, is_timely, alarm_right, is_unmet, names_others, dormant_entry_right, is_free, entry_right, request_fits};
ghost use Rattle.executive.specs.Check.{message_in_range, is_no_message, is_no_mail, is_emptied};

use crate::{Mail, Message, Millis, Request, State, Task, clock, flags, states};

// The counts, the granule and the clock are in range.
pub fn in_bounds(count: u8, granule: u8, clock: Millis, queued: u8) -> bool
    ensures { result ≡ in_bounds count granule clock queued }
{
    1 <= count && count <= 16 && 1 <= granule && clock.0 <= clock::END_OF_TIME && queued <= 32
}

// One who waits for a subprogram waits for one of 0 to 7; one who waits for a message, for one of the tasks' or any.
pub fn awaits_in_range(s: State, count: u8) -> bool
    ensures { result ≡ awaits_in_range count s }
{
    let number = states::awaited_of(s);
    if states::is_of(s, states::AWAIT_SUB) {
        return number <= 7;
    }
    if states::is_of(s, states::AWAIT_MESSAGE) {
        return number <= count;
    }
    true
}

// The numbers of an entry but the link's.
pub fn numbers_in_range(e: Task, count: u8) -> bool
    ensures { result ≡ numbers_in_range count e }
{
    e.own <= 15 && e.priority <= 15 && awaits_in_range(e.state, count)
}

pub fn entry_in_range(e: Task, count: u8) -> bool
    ensures { result ≡ entry_in_range count e }
{
    numbers_in_range(e, count) && e.end_waiter.0 <= count
}

// Zeros but for the own priority and the state.
pub fn is_zero(e: Task) -> bool
    ensures { result ≡ is_zero e }
{
    e.priority == 0 && e.argument == 0 && e.start.0 == 0 && e.end_waiter.0 == 0
}

// An entry past the task count.
pub fn is_blank(e: Task) -> bool
    ensures { result ≡ is_blank e }
{
    states::is_dormant(e.state) && e.own == 0 && is_zero(e)
}

// A dormant task holds zeros but for its own priority.
pub fn dormant_entry_right(e: Task) -> bool
    ensures { result ≡ dormant_entry_right e }
{
    !states::is_dormant(e.state) || is_zero(e)
}

// A stored time is after the clock and at most the longest interval after it.
pub fn is_stored(at: Millis, now: Millis) -> bool
    ensures { result ≡ is_stored now.0 at.0 }
{
    now.0 < at.0 && at.0 - now.0 <= clock::LONGEST
}

pub fn is_timely(s: State, now: Millis) -> bool
    ensures { result ≡ is_timely now.0 s }
{
    !states::has_time(s) || is_stored(states::time_of(s), now)
}

// A wait mask is nonzero and its condition is false.
pub fn is_unmet(s: State, flags: u32) -> bool
    ensures { result ≡ is_unmet flags s }
{
    let mask = states::mask_of(s);
    !states::has_mask(s) || 0 < mask && !flags::is_met(flags, states::wait_mode(s), mask)
}

// The rules on one entry alone: its numbers, its stored time, its last scheduled start, its wait mask, its zeros
// while it is dormant.
pub fn entry_right(e: Task, count: u8, now: Millis, flags: u32) -> bool
    ensures { result ≡ entry_right count now.0 flags e }
{
    entry_in_range(e, count)
        && is_timely(e.state, now)
        && e.start.0 <= now.0
        && is_unmet(e.state, flags)
        && dormant_entry_right(e)
}

pub fn request_in_range(q: Request, count: u8) -> bool
    ensures { result ≡ request_in_range count q }
{
    q.priority <= 15 && q.target.0 <= count && q.start_waiter.0 <= count && q.end_waiter.0 <= count
}

// A request's waiter is not its target, and there are not two of them.
pub fn names_others(q: Request) -> bool
    ensures { result ≡ names_others q }
{
    q.target != q.start_waiter
        && q.target != q.end_waiter
        && (q.start_waiter.0 == 0 || q.end_waiter.0 == 0)
}

pub fn is_free(q: Request) -> bool
    ensures { result ≡ is_free q }
{
    q.target.0 == 0
        && q.priority == 0
        && q.argument == 0
        && q.start_waiter.0 == 0
        && q.end_waiter.0 == 0
}

// The rules on one request alone: its numbers and its waiter.
pub fn request_fits(q: Request, count: u8) -> bool
    ensures { result ≡ request_fits count q }
{
    request_in_range(q, count) && names_others(q)
}

// An alarm that is running has a stored time.
pub fn alarm_right(a: Millis, now: Millis) -> bool
    ensures { result ≡ alarm_right now.0 a }
{
    a.0 == 0 || is_stored(a, now)
}

// A waiting message's addressee and sender are tasks, and its priority is in range.
pub fn message_in_range(m: Message, count: u8) -> bool
    ensures { result ≡ message_in_range count m }
{
    0 < m.to.0 && m.to.0 <= count && 0 < m.sender.0 && m.sender.0 <= count && m.priority <= 15
}

pub fn is_no_message(m: Message) -> bool
    ensures { result ≡ is_no_message m }
{
    m.to.0 == 0 && m.sender.0 == 0 && m.priority == 0 && m.text.0 == 0
}

pub fn is_no_mail(x: Mail) -> bool
    ensures { result ≡ is_no_mail x }
{
    x.sender.0 == 0 && x.text.0 == 0
}

// No message stands in a dormant task's entry.
pub fn is_emptied(s: State, x: Mail) -> bool
    ensures { result ≡ is_emptied s x }
{
    !states::is_dormant(s) || is_no_mail(x)
}
