// The messages: kinds 14 and 15, a function for each, and what a call makes of those that wait and of a task's mail.
ghost use Rattle.std.specs.Prelude.{◌≡◌, false, not, cond, ◌||◌, ◌<◌, ◌≤◌, eqb, ltb, leb, get_or, length};
ghost use Rattle.executive.specs.Numbers.{most_sent};
ghost use Rattle.executive.specs.Lists.{◌and◌};
ghost use Rattle.executive.specs.Pool.{removed};
ghost use Rattle.executive.specs.States.{takes, takes_from};
ghost use Rattle.executive.specs.Messages.{no_message, letters, LettersInOrder, with_letters, fits, first_fit, stay_ahead, put_in_at, urgency, post_in, with_mail};
ghost use Rattle.executive.specs.Decisions.{send_deed, receive_deed, receive_deed_by, refusing, doing};
ghost use Rattle.executive.specs.Sheet.{only_z, hands_out};

use crate::decisions::{Change, Decision, Deed, Leave};
use crate::{
    Mail, Marks, Message, Rest, State, answers, decisions, lines, places, pool, refusals, states,
};
use records::{Refusal, TaskNo, Text};

// The blank message.
pub const NO_MESSAGE: Message = Message {
    to: TaskNo(0),
    sender: TaskNo(0),
    priority: 0,
    text: Text(0),
};

// No mail.
pub const NO_MAIL: Mail = Mail {
    sender: TaskNo(0),
    text: Text(0),
};

// Whether one who waits for a message from a number, 0 for any, takes one from task c.
fn takes_from(number: u8, c: TaskNo) -> bool
    ensures { result ≡ takes_from number c.0 }
{
    number == 0 || number == c.0
}

// Whether a task in this state takes a message from task c.
pub fn takes(s: State, c: TaskNo) -> bool
    ensures { result ≡ takes c.0 s }
{
    states::is_of(s, states::AWAIT_MESSAGE) && takes_from(states::awaited_of(s), c)
}

// Whether a message fits one who receives as task k, from number s or, where s is 0, from any.
pub fn is_fit(m: Message, k: TaskNo, s: TaskNo) -> bool
    ensures { result ≡ fits k.0 s.0 m }
{
    k == m.to && takes_from(s.0, m.sender)
}

// The place of the first waiting message that fits; the number of those that wait where there is none, as `receiving`
// is told it.
fn first_fit(letters: &[Message], k: TaskNo, s: TaskNo) -> usize
    ensures { result ≡ first_fit k.0 s.0 letters.now }
{
    letters
        .iter()
        .position(|m| is_fit(*m, k, s))
        .unwrap_or(letters.len())
}

// How many of those that wait stay ahead of one of priority p.
fn ahead(letters: &[Message], p: u8) -> usize
    ensures { result ≡ stay_ahead urgency p letters.now }
{
    letters
        .iter()
        .position(|m| m.priority < p)
        .unwrap_or(letters.len())
}

// Kind 14: a task that waits for it gets it and enters; else it waits, behind all of equal or higher priority. The
// state of the addressee, the caller's priority.
pub(crate) fn send(
    s: State,
    p: u8,
    letters: &[Message],
    count: u8,
    c: TaskNo,
    k: TaskNo,
    text: Text,
) -> Decision
    ensures { result ≡ cond (eqb k.0 0 || ltb count k.0) (refusing 6)
        (cond (not (takes c.0 s) and leb most_sent (length letters.now)) (refusing 16)
        (doing (only_z false) (send_deed c p s (stay_ahead urgency p letters.now) k text))) }
{
    if refusals::no_such_task(count, k) {
        return decisions::refuse(Refusal::OutOfRange);
    }
    let marks = answers::only_z(false);
    if takes(s, c) {
        let entrants = decisions::only_woken(k);
        let deed = Deed {
            leave: Leave::Stays,
            entrants,
            request: pool::NO_REQUEST,
            change: Change::Delivered(k, Mail { sender: c, text }),
            empties: TaskNo(0),
        };
        return decisions::accepted(marks, deed);
    }
    if 32 <= letters.len() {
        return decisions::refuse(Refusal::MessagesFull);
    }
    let at = ahead(letters, p);
    let m = Message {
        to: k,
        sender: c,
        priority: p,
        text,
    };
    let deed = decisions::alone(Leave::Stays, Change::Posted(m, at));
    decisions::accepted(marks, deed)
}

// The marks of a receive that hands out a message.
pub fn handing(m: Message) -> Marks
    ensures { result ≡ hands_out m }
{
    let sender = m.sender;
    let text = m.text;
    Marks {
        z: false,
        v: false,
        c: false,
        skipped: 0,
        sender,
        text,
    }
}

// The deed of a receive: the first that fits is at place i of n, or there is none and the caller waits for one.
pub fn receiving(c: TaskNo, s: TaskNo, i: usize, n: usize) -> Deed
    ensures { result ≡ receive_deed_by c s i n }
{
    let entrants = decisions::none();
    if i < n {
        return Deed {
            leave: Leave::Stays,
            entrants,
            request: pool::NO_REQUEST,
            change: Change::HandedOut(i),
            empties: c,
        };
    }
    Deed {
        leave: Leave::As(State::AwaitMessage(s)),
        entrants,
        request: pool::NO_REQUEST,
        change: Change::Same,
        empties: c,
    }
}

// The message at a place; a blank one past the last.
fn message_at(letters: &[Message], i: usize) -> Message
    ensures { result ≡ get_or letters.now i no_message }
{
    if i < letters.len() {
        letters[i]
    } else {
        NO_MESSAGE
    }
}

// Kind 15: the first waiting message that fits is handed out; where there is none, the caller departs and waits.
pub(crate) fn receive(letters: &[Message], count: u8, c: TaskNo, s: TaskNo) -> Decision
    ensures { result ≡ cond (ltb count s.0) (refusing 6)
        (doing (hands_out (get_or letters.now (first_fit c.0 s.0 letters.now) no_message))
        (receive_deed c letters.now s)) }
{
    if count < s.0 {
        return decisions::refuse(Refusal::OutOfRange);
    }
    let i = first_fit(letters, c, s);
    let m = message_at(letters, i);
    let marks = handing(m);
    let deed = receiving(c, s, i, letters.len());
    decisions::accepted(marks, deed)
}

impl Rest {
    // The rest with one more message that waits, at a place.
    pub(crate) fn with_letter(mut self, m: Message, at: usize) -> Rest
        requires { LettersInOrder self × (at ≤ self.sent) × (self.sent < 32) }
        ensures { result ≡ with_letters (put_in_at at m (letters self)) self }
    {
        self.messages = lines::slid(self.messages, at, self.sent as usize, m);
        self.sent += 1;
        self
    }

    // The rest with a message put behind all of equal or higher priority; where the last place is taken, the rest kept.
    pub fn post_in(mut self, m: Message) -> Rest
        ensures { result ≡ post_in m self }
    {
        let n = self.sent as usize;
        if 31 < n {
            return self;
        }
        let at = ahead(&self.messages[..n], m.priority);
        self.messages = lines::slid(self.messages, at, n, m);
        self.sent += 1;
        self
    }

    // The rest with a message handed out: the others close up.
    pub(crate) fn without_letter(mut self, i: usize) -> Rest
        requires { LettersInOrder self × (i < self.sent) }
        ensures { result ≡ with_letters (removed i (letters self)) self }
    {
        self.messages = lines::closed_at(self.messages, NO_MESSAGE, i);
        self.sent -= 1;
        self
    }

    // The rest with another mail in a task's entry; a number that names no task has none.
    pub(crate) fn with_mail(mut self, k: TaskNo, x: Mail) -> Rest
        ensures { result ≡ with_mail k.0 x self }
    {
        let i = places::entry_place(k);
        if i < 16 {
            self.mail[i] = x;
        }
        self
    }
}
