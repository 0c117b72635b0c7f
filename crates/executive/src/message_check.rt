// The check of the messages: those that wait, the free places, and the tasks' mail.
ghost use Rattle.std.specs.Prelude.{◌≡◌};
ghost use Rattle.executive.specs.Lists.{all_of};
ghost use Rattle.executive.specs.Check.{is_untaken, is_no_message, letters_right, sent_right, mail_right};

use crate::{Mail, Message, Task, messages, places, rules};

// No message that its addressee waits for.
fn is_untaken(tasks: &[Task; 16], m: Message) -> bool
    ensures { result ≡ is_untaken tasks.now m }
{
    !messages::takes(places::read_at(tasks, m.to).state, m.sender)
}

// Those that wait are in range and descend, and no addressee waits for one of them; in one pass.
#[tactic(auto, using(crate::proofs::check::Messages::one_pass))]
fn letters_right(tasks: &[Task; 16], waiting: &[Message], count: u8) -> bool
    ensures { result ≡ letters_right tasks.now count 15 waiting.now }
{
    let mut p: u8 = 15;
    for m in waiting {
        if !rules::message_in_range(*m, count) {
            return false;
        }
        if p < m.priority {
            return false;
        }
        if !is_untaken(tasks, *m) {
            return false;
        }
        p = m.priority;
    }
    true
}

// These places are free: all their numbers, put together, and all their texts, are 0. It stops at none of them, so that
// the compiler can take many at a time.
#[tactic(auto, using(crate::proofs::check::PutTogether::put_together))]
fn none_sent(places: &[Message]) -> bool
    ensures { result ≡ all_of is_no_message places.now }
{
    let mut numbers: u8 = 0;
    let mut texts: u64 = 0;
    for m in places {
        numbers |= m.to.0 | m.sender.0 | m.priority;
        texts |= m.text.0;
    }
    numbers == 0 && texts == 0
}

// The messages keep their rules.
pub(crate) fn sent_right(tasks: &[Task; 16], messages: &[Message; 32], sent: u8, count: u8) -> bool
    ensures { result ≡ sent_right tasks.now count sent messages.now }
{
    if 32 < sent {
        return false;
    }
    let n = sent as usize;
    letters_right(tasks, &messages[..n], count) && none_sent(&messages[n..])
}

// The mail of each task is in range, and a dormant one has none; in one pass.
pub(crate) fn mail_right(tasks: &[Task; 16], mail: &[Mail; 16], count: u8) -> bool
    ensures { result ≡ mail_right tasks.now count mail.now }
{
    mail.iter().zip(tasks).all(|(x, e)| x.sender.0 <= count && rules::is_emptied(e.state, *x))
}
