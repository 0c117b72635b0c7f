// Kinds 14 and 15 decided on the lent bytes of an image.
ghost use Rattle.std.specs.Prelude.{◌≡◌, ◌<◌, ◌≤◌, length, take, get_or};
ghost use Rattle.records.specs.declared.Call.TheVariants as call;
ghost use Rattle.executive.specs.declared.Table.{Table};
ghost use Rattle.executive.specs.Messages.{no_message, fits, first_fit, stay_ahead, urgency};
ghost use Rattle.executive.specs.WellFormed.{WellFormed};
ghost use Rattle.executive.specs.Sheet.{decided};
ghost use Rattle.image.specs.Image.{image_length};
ghost use Rattle.image.specs.Laid.{Laid};

use crate::{IMAGE, MESSAGES, SENT, deeds, fields, loading};
use executive::decisions::{Change, Decision, Leave};
use executive::{Mail, Message, answers, decisions, messages, refusals};
use records::{Refusal, TaskNo, Text};

// How many of the first n messages stay ahead of one of priority p.
// The messages are bytes of the image, so a count says how many.
fn ahead(b: &[u8; IMAGE], n: usize, p: u8) -> usize
    requires { n ≤ 32 }
    ensures { (t : Table) → Laid b.now t → result ≡ stay_ahead urgency p (take n t.rest.messages) }
{
    for i in 0..n {
        if b[MESSAGES + i * 11 + 2] < p {
            return i;
        }
    }
    n
}

// Whether the message at a place fits one who receives as task k, from number s or, where s is 0, from any.
fn is_fit(b: &[u8; IMAGE], i: usize, k: TaskNo, s: TaskNo) -> bool
    requires { i < 32 }
    ensures { (t : Table) → Laid b.now t
        → result ≡ fits k.0 s.0 (get_or t.rest.messages i no_message) }
{
    if k.0 != b[MESSAGES + i * 11] {
        return false;
    }
    if s.0 == 0 {
        return true;
    }
    s.0 == b[MESSAGES + i * 11 + 1]
}

// The place of the first of n messages that fits; n where there is none, as `messages::receiving` takes it.
fn first_fit(b: &[u8; IMAGE], n: usize, k: TaskNo, s: TaskNo) -> usize
    requires { n ≤ 32 }
    ensures { (t : Table) → Laid b.now t
        → result ≡ first_fit k.0 s.0 (take n t.rest.messages) }
{
    for i in 0..n {
        if is_fit(b, i, k, s) {
            return i;
        }
    }
    n
}

// Kind 14: a task that waits for it gets it and enters; else it waits, behind all of equal or higher priority.
pub(crate) fn send(b: &[u8; IMAGE], c: TaskNo, k: TaskNo, text: Text) -> Decision
    ensures { (t : Table) → Laid b.now t → WellFormed t
        → result ≡ decided t.tasks t.rest c (call.Send k text) }
{
    if refusals::no_such_task(b[fields::COUNT], k) {
        return decisions::refuse(Refusal::OutOfRange);
    }
    let marks = answers::only_z(false);
    let e = fields::entry(b, k);
    if messages::takes(e.state, c) {
        let delivered = Change::Delivered(k, Mail { sender: c, text });
        let deed = deeds::letting_in(decisions::only_woken(k), delivered);
        return decisions::accepted(marks, deed);
    }
    let sent = b[SENT];
    if 32 <= sent {
        return decisions::refuse(Refusal::MessagesFull);
    }
    let priority = fields::level(b, c.0);
    let at = ahead(b, sent as usize, priority);
    let m = Message {
        to: k,
        sender: c,
        priority,
        text,
    };
    let waits = decisions::alone(Leave::Stays, Change::Posted(m, at));
    decisions::accepted(marks, waits)
}

// The message at place i of n; a blank one past the last.
fn message_at(b: &[u8; IMAGE], i: usize, n: usize) -> Message
    requires { n ≤ 32 }
    ensures { (t : Table) → Laid b.now t → result ≡ get_or (take n t.rest.messages) i no_message }
{
    if i < n {
        return loading::message_in(b, MESSAGES + i * 11);
    }
    messages::NO_MESSAGE
}

// Kind 15: the first waiting message that fits is handed out; where there is none, the caller departs and waits.
pub(crate) fn receive(b: &[u8; IMAGE], c: TaskNo, s: TaskNo) -> Decision
    ensures { (t : Table) → Laid b.now t → WellFormed t
        → result ≡ decided t.tasks t.rest c (call.Receive s) }
{
    if b[fields::COUNT] < s.0 {
        return decisions::refuse(Refusal::OutOfRange);
    }
    let n = fields::at_most(b[SENT], 32) as usize;
    let i = first_fit(b, n, c, s);
    let m = message_at(b, i, n);
    let marks = messages::handing(m);
    let deed = messages::receiving(c, s, i, n);
    decisions::accepted(marks, deed)
}
