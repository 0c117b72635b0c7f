// What becomes of the rest of a table, in the lent bytes of its image: one function for each change that a deed has.
ghost use Rattle.std.specs.Prelude.{◌≡◌, ℕ, List, [], ◌∷◌, ◌++◌, ◌+◌, ◌-◌, ◌*◌, ◌<◌, ◌≤◌, ◌^◌, length, take, drop};
ghost use Rattle.executive.specs.declared.Table.{Table};
ghost use Rattle.executive.specs.Numbers.{sub_count, most_tasks, end_of_time};
ghost use Rattle.executive.specs.Lists.{each};
ghost use Rattle.executive.specs.Pool.{PoolInOrder, requests, removed, with_requests};
ghost use Rattle.executive.specs.Table.{with_rest};
ghost use Rattle.executive.specs.Clock.{rung, advanced};
ghost use Rattle.executive.specs.Subprograms.{LineInOrder, sub_at, enters_it, joins_line, handed_on, with_sub};
ghost use Rattle.executive.specs.Messages.{LettersInOrder, letters, with_letters, put_in_at};
ghost use Rattle.executive.specs.Decisions.{changed, first_due, Able};
ghost use Rattle.image.specs.Blocks.{written};
ghost use Rattle.image.specs.Image.{image_length};
ghost use Rattle.image.specs.Laid.{Laid};
ghost use Rattle.image.specs.Marks.{Running};

use crate::laying::Block;
use crate::{
    ALARMS, IMAGE, MESSAGES, POOL, SENT, SUBS, fields, members, moves, moving, numbers, storing,
};
use executive::decisions::Change;
use executive::{Message, Millis, Request, clock, messages, pool};
use records::{SubNo, TaskNo};

// A request is queued behind the others.
fn add_request(b: &mut [u8; IMAGE], q: Request)
    ensures { (t : Table) → Laid b.old t → PoolInOrder t.rest → t.rest.queued < 32
        → Laid b.new (with_rest (with_requests (requests t.rest ++ (q ∷ [])) t.rest) t) }
{
    let n = b[fields::QUEUED];
    if 31 < n {
        return;
    }
    storing::put_request(b, POOL + (n as usize) * 6, q);
    fields::set_queued(b, n + 1);
}

// The block at a place of a row of 32 is taken out: those behind it move up, and the last place is blank.
fn take_out<T: Block>(b: &mut [u8], row: usize, i: usize, blank: &T)
    requires { (row + 32 * T.WIDTH ≤ length b.old) × (i < 32) }
    ensures { (r : List ℕ)
        × (r ≡ written b.old (row + i * T.WIDTH) (take ((31 - i) * T.WIDTH) (drop (row + i * T.WIDTH + T.WIDTH) b.old)))
        × (b.new ≡ written r (row + 31 * T.WIDTH) (T.bytes blank.now)) }
{
    let width = T::WIDTH;
    let at = row + i * width;
    moving::move_up(b, at, at + width, (31 - i) * width);
    blank.put(b, row + 31 * width);
}

// The request at a place is taken out: those behind it move up, and the last place is free.
// What it shares with `hand_out` is `take_out`; each has its own count and list.
fn take_request(b: &mut [u8; IMAGE], i: usize)
    ensures { (t : Table) → Laid b.old t → PoolInOrder t.rest → i < t.rest.queued
        → Laid b.new (with_rest (with_requests (removed i (requests t.rest)) t.rest) t) }
{
    let n = b[fields::QUEUED];
    if n == 0 {
        return;
    }
    if 31 < i {
        return;
    }
    take_out(b, POOL, i, &pool::NO_REQUEST);
    fields::set_queued(b, n - 1);
}

// A message waits at a place: those from there on move down.
fn post(b: &mut [u8; IMAGE], m: Message, at: usize)
    ensures { (t : Table) → Laid b.old t → LettersInOrder t.rest → at ≤ t.rest.sent
        → t.rest.sent < 32
        → Laid b.new (with_rest (with_letters (put_in_at at m (letters t.rest)) t.rest) t) }
{
    let n = b[SENT];
    if 31 < n {
        return;
    }
    if (n as usize) < at {
        return;
    }
    let from = MESSAGES + at * 11;
    moving::letters_down(b, at as u8, n);
    storing::put_message(b, from, m);
    fields::set_sent(b, n + 1);
}

// The message at a place is taken out.
fn hand_out(b: &mut [u8; IMAGE], i: usize)
    ensures { (t : Table) → Laid b.old t → LettersInOrder t.rest → i < t.rest.sent
        → Laid b.new (with_rest (with_letters (removed i (letters t.rest)) t.rest) t) }
{
    let n = b[SENT];
    if n == 0 {
        return;
    }
    if 31 < i {
        return;
    }
    take_out(b, MESSAGES, i, &messages::NO_MESSAGE);
    fields::set_sent(b, n - 1);
}

// Task k gets into subprogram m.
fn hold(b: &mut [u8; IMAGE], m: SubNo, k: TaskNo)
    ensures { (t : Table) → Laid b.old t → m.0 < sub_count
        → Laid b.new (with_rest (with_sub m.0 (enters_it k (sub_at t.rest m.0)) t.rest) t) }
{
    if 7 < m.0 {
        return;
    }
    numbers::put_byte(b, SUBS + (m.0 as usize) * 18, k.0);
}

// Task k joins its line at a place.
fn line_up(b: &mut [u8; IMAGE], m: SubNo, k: TaskNo, at: usize)
    ensures { (t : Table) → Laid b.old t → m.0 < sub_count → LineInOrder (sub_at t.rest m.0)
        → at ≤ (sub_at t.rest m.0).waiting
        → (sub_at t.rest m.0).waiting < most_tasks
        → Laid b.new (with_rest (with_sub m.0 (joins_line at k (sub_at t.rest m.0)) t.rest) t) }
{
    if 7 < m.0 {
        return;
    }
    let base = SUBS + (m.0 as usize) * 18;
    let n = b[base + 1];
    if 15 < n {
        return;
    }
    if (n as usize) < at {
        return;
    }
    moves::slide(b, base + 2, at, n as usize, k);
    numbers::put_byte(b, base + 1, n + 1);
}

// Its holder gets out: the first of its line gets in, or nobody.
fn hand_on(b: &mut [u8; IMAGE], m: SubNo)
    ensures { (t : Table) → Laid b.old t → m.0 < sub_count → LineInOrder (sub_at t.rest m.0)
        → Laid b.new (with_rest (with_sub m.0 (handed_on (sub_at t.rest m.0)) t.rest) t) }
{
    if 7 < m.0 {
        return;
    }
    let base = SUBS + (m.0 as usize) * 18;
    let n = b[base + 1];
    if n == 0 {
        numbers::put_byte(b, base, 0);
        return;
    }
    let w = b[base + 2];
    numbers::put_byte(b, base, w);
    moves::close_up(b, base + 2);
    numbers::put_byte(b, base + 1, n - 1);
}

// The word with one bit.
pub(crate) fn bit_of(n: usize) -> u32
    requires { n < 32 }
    ensures { result ≡ 2 ^ n }
{
    1u32 << (n as u32)
}

// Alarm i, if it is due, sets its flag and is cleared.
fn ring(b: &mut [u8; IMAGE], i: usize, time: u64)
    requires { i < 32 }
    ensures { (t : Table) → Laid b.old t → time ≡ t.rest.clock.0
        → Laid b.new (with_rest (rung t.rest i) t) }
{
    let alarm = numbers::long_in(b, ALARMS + i * 8);
    if alarm == 0 {
        return;
    }
    if time < alarm {
        return;
    }
    let flags = numbers::word_in(b, fields::FLAGS);
    fields::set_alarm(b, i, Millis(0));
    fields::set_flags(b, flags | bit_of(i));
}

// The due alarms ring, of those that are running, from a place on.
fn ring_from(b: &mut [u8; IMAGE], running: u32, first: usize, time: u64)
    ensures { (t : Table) → Laid b.old t → Running running t.rest.alarms
        → time ≡ t.rest.clock.0 → Laid b.new (with_rest (each rung (32 - first) first t.rest) t) }
{
    if 31 < first {
        return;
    }
    let mut i = members::next_in(running, first as u8);
    // A while: it steps to the next alarm that is running, not by one.
    while i < 32 {
        ring(b, i as usize, time);
        i = members::next_in(running, i + 1);
    }
}

// The clock gains a granule, and the due alarms ring, from the first of them on.
fn advance(b: &mut [u8; IMAGE], first: usize, running: u32)
    ensures { (t : Table) → Laid b.old t → Running running t.rest.alarms
        → t.rest.clock.0 + t.rest.granule ≤ end_of_time → first ≡ first_due t.rest
        → Laid b.new (with_rest (advanced t.rest) t) }
{
    let now = numbers::long_in(b, fields::CLOCK);
    if clock::END_OF_TIME < now {
        return;
    }
    let time = now + b[fields::GRANULE] as u64;
    fields::set_clock(b, Millis(time));
    ring_from(b, running, first, time);
}

// The rest after a change.
pub(crate) fn change(b: &mut [u8; IMAGE], what: Change, q: Request, running: u32)
    ensures { (t : Table) → Laid b.old t → Running running t.rest.alarms → PoolInOrder t.rest
        → Able what t.rest
        → Laid b.new (with_rest (changed what q t.rest) t) }
{
    match what {
        Change::Same => {}
        Change::Flags(flags) => fields::set_flags(b, flags),
        Change::Alarm(f, at) => fields::set_alarm_of(b, f, at),
        Change::Put => add_request(b, q),
        Change::Taken(i) => take_request(b, i),
        Change::Clock(first) => advance(b, first, running),
        Change::Held(m, k) => hold(b, m, k),
        Change::Lined(m, k, at) => line_up(b, m, k, at),
        Change::HandedOn(m) => hand_on(b, m),
        Change::Posted(m, at) => post(b, m, at),
        Change::Delivered(k, x) => fields::set_mail(b, k, x),
        Change::HandedOut(i) => hand_out(b, i),
    }
}
