// Kinds 00 to 05 and 0A decided on the lent bytes of an image: what they look at is read there, and the executive's own
// function says the rest.
ghost use Rattle.std.specs.Prelude.{◌≡◌, ◌+◌, ◌*◌, ◌<◌, ◌≤◌, length, take, IfSome, unwrap_or};
ghost use Rattle.records.specs.declared.Call.TheVariants as call;
ghost use Rattle.executive.specs.declared.Table.{Table};
ghost use Rattle.executive.specs.Pool.{place_of};
ghost use Rattle.executive.specs.Subprograms.{holds_any_of};
ghost use Rattle.executive.specs.WellFormed.{WellFormed};
ghost use Rattle.executive.specs.Sheet.{decided};
ghost use Rattle.image.specs.Image.{image_length};
ghost use Rattle.image.specs.Laid.{Laid};

use crate::{IMAGE, POOL, SUBS, fields, loading, numbers};
use executive::decisions::Decision;
use executive::{Millis, State, Task, calls, decisions, flags, starts};
use records::{Refusal, TaskNo};

// Whether a task holds any subprogram.
fn holds_any(b: &[u8; IMAGE], k: TaskNo) -> bool
    ensures { (t : Table) → Laid b.now t → result ≡ holds_any_of k t.rest.subs }
{
    (0..8usize).any(|i| k.0 == b[SUBS + i * 18])
}

// The place of the earliest request for a task, of the first n.
fn first_for(b: &[u8; IMAGE], n: u8, k: TaskNo) -> Option<u8>
    requires { n ≤ 32 }
    ensures place { IfSome result (λ i. i < n) }
    ensures value { (t : Table) → Laid b.now t
        → place_of k.0 (take n t.rest.pool) ≡ unwrap_or result n }
{
    (0..n).find(|i| k.0 == b[POOL + (*i as usize) * 6])
}

// Kind 00.
pub(crate) fn terminate(b: &[u8; IMAGE], c: TaskNo) -> Decision
    ensures { (t : Table) → Laid b.now t → WellFormed t
        → result ≡ decided t.tasks t.rest c call.Terminate }
{
    if holds_any(b, c) {
        return decisions::refuse(Refusal::StillHeld);
    }
    let w = fields::end_waiter(b, c);
    let n = fields::at_most(b[fields::QUEUED], 32);
    if let Some(place) = first_for(b, n, c) {
        let i = place as usize;
        let q = loading::request_in(b, POOL + i * 6);
        return calls::begins_anew(w, c, q, i);
    }
    calls::sleeps(w, c)
}

// Kind 01. Of the caller's entry it asks the last scheduled start and who waits for the end.
pub(crate) fn restart(b: &[u8; IMAGE], c: TaskNo, param: u8, count: u8) -> Decision
    ensures { (t : Table) → Laid b.now t → WellFormed t
        → result ≡ decided t.tasks t.rest c (call.Restart param count) }
{
    let start = fields::start(b, c);
    let end_waiter = fields::end_waiter(b, c);
    let e = Task {
        own: 0,
        state: State::Dormant,
        priority: 0,
        argument: 0,
        start,
        end_waiter,
    };
    let holding = holds_any(b, c);
    let time = numbers::long_in(b, fields::CLOCK);
    calls::restart(e, Millis(time), c, holding, param, count)
}

// Kind 02.
pub(crate) fn pause(b: &[u8; IMAGE], c: TaskNo, unit: u8, count: u8) -> Decision
    ensures { (t : Table) → Laid b.now t → WellFormed t
        → result ≡ decided t.tasks t.rest c (call.Pause unit count) }
{
    let time = numbers::long_in(b, fields::CLOCK);
    calls::pause(Millis(time), unit, count)
}

// Kind 03.
pub(crate) fn cancel_pause(b: &[u8; IMAGE], c: TaskNo, k: TaskNo) -> Decision
    ensures { (t : Table) → Laid b.now t
        → result ≡ decided t.tasks t.rest c (call.CancelPause k) }
{
    let e = fields::entry(b, k);
    calls::cancel_pause(e, b[fields::COUNT], k)
}

// Kind 04.
pub(crate) fn start_if_dormant(b: &[u8; IMAGE], c: TaskNo, option: u8, k: TaskNo) -> Decision
    ensures { (t : Table) → Laid b.now t
        → result ≡ decided t.tasks t.rest c (call.StartIfDormant option k) }
{
    let e = fields::entry(b, k);
    starts::start_if_dormant(e, b[fields::COUNT], c, option, k)
}

// Kind 05.
pub(crate) fn start_or_queue(
    b: &[u8; IMAGE],
    c: TaskNo,
    option: u8,
    k: TaskNo,
    argument: u16,
) -> Decision
    ensures { (t : Table) → Laid b.now t
        → result ≡ decided t.tasks t.rest c (call.StartOrQueue option k argument) }
{
    let e = fields::entry(b, k);
    starts::start_or_queue(
        e,
        b[fields::COUNT],
        b[fields::QUEUED],
        c,
        option,
        k,
        argument,
    )
}

// Kind 0A.
pub(crate) fn wait(b: &[u8; IMAGE], c: TaskNo, mode: u8, mask: u32) -> Decision
    ensures { (t : Table) → Laid b.now t
        → result ≡ decided t.tasks t.rest c (call.Wait mode mask) }
{
    let set = numbers::word_in(b, fields::FLAGS);
    flags::wait(set, mode, mask)
}
