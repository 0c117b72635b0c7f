// Kinds 06 and 07 decided on the lent bytes of an image.
ghost use Rattle.std.specs.Prelude.{◌≡◌, ◌<◌, length};
ghost use Rattle.records.specs.declared.Call.TheVariants as call;
ghost use Rattle.executive.specs.declared.Table.{Table};
ghost use Rattle.executive.specs.Table.{head_of};
ghost use Rattle.executive.specs.Subprograms.{sub_at, line_of};
ghost use Rattle.executive.specs.WellFormed.{WellFormed};
ghost use Rattle.executive.specs.Sheet.{decided};
ghost use Rattle.image.specs.Image.{image_length};
ghost use Rattle.image.specs.Laid.{Laid};

use crate::{IMAGE, SUBS, deeds, fields, moves};
use executive::decisions::{Change, Decision, Leave};
use executive::{State, answers, decisions};
use records::{Refusal, SubNo, TaskNo};

// Kind 06: the caller gets in, or departs and waits behind all of equal or higher priority.
pub(crate) fn enter(b: &[u8; IMAGE], c: TaskNo, m: SubNo) -> Decision
    ensures { (t : Table) → Laid b.now t → WellFormed t
        → result ≡ decided t.tasks t.rest c (call.Enter m) }
{
    if 7 < m.0 {
        return decisions::refuse(Refusal::OutOfRange);
    }
    let base = SUBS + (m.0 as usize) * 18;
    let holder = b[base];
    if c.0 == holder {
        return decisions::refuse(Refusal::HeldAlready);
    }
    let marks = answers::only_z(false);
    if holder == 0 {
        let gets_in = decisions::alone(Leave::Stays, Change::Held(m, c));
        return decisions::accepted(marks, gets_in);
    }
    let n = fields::at_most(b[base + 1], 16);
    let p = fields::level(b, c.0);
    let at = moves::ahead(b, base + 2, n, p);
    let waits = decisions::alone(
        Leave::As(State::AwaitSub(m)),
        Change::Lined(m, c, at as usize),
    );
    decisions::accepted(marks, waits)
}

// The first of a subprogram's line; nobody where none waits.
// Nobody is task 0, as in the table.
fn first_of(b: &[u8; IMAGE], m: SubNo) -> TaskNo
    requires { m.0 < 8 }
    ensures { (t : Table) → Laid b.now t → result ≡ head_of (line_of (sub_at t.rest m.0)) }
{
    let base = SUBS + (m.0 as usize) * 18;
    if b[base + 1] == 0 {
        return TaskNo(0);
    }
    TaskNo(b[base + 2])
}

// Kind 07: the first of the line gets in and enters the ready queue.
// The holder is a byte of the image, which is no `TaskNo`.
pub(crate) fn exit(b: &[u8; IMAGE], c: TaskNo, m: SubNo) -> Decision
    ensures { (t : Table) → Laid b.now t → result ≡ decided t.tasks t.rest c (call.Exit m) }
{
    if 7 < m.0 {
        return decisions::refuse(Refusal::OutOfRange);
    }
    if c.0 != b[SUBS + (m.0 as usize) * 18] {
        return decisions::refuse(Refusal::NotHeld);
    }
    let marks = answers::only_z(false);
    let w = first_of(b, m);
    let deed = deeds::letting_in(decisions::only_woken(w), Change::HandedOn(m));
    decisions::accepted(marks, deed)
}
