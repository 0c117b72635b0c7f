// The check of the messages on the lent bytes: those that wait, the free places, and the tasks' mail.
ghost use Rattle.std.specs.Prelude.{◌≡◌, true, false, ℕ, ◌+◌, ◌≤◌, ◌<◌, length, take};
ghost use Rattle.executive.specs.Places.{task_at};
ghost use Rattle.executive.specs.States.{await_message, is_of, takes};
ghost use Rattle.executive.specs.Flags.{is_set};
ghost use Rattle.executive.specs.Check.{letters_right, sent_right, mail_right, mail_right_at};
ghost use Rattle.image.specs.Image.{image_length, load_of};
ghost use Rattle.image.specs.Sound.{tasks_in, messages_in, mail_in};
ghost use Rattle.image.specs.Marks.{passed, Marked};

use crate::{AWAITED, IMAGE, MAIL, MESSAGES, SENT, fields, numbers, zeros};

// Whether a task takes a message from this sender.
fn is_taken(b: &[u8; IMAGE], to: u8, sender: u8) -> bool
    ensures { result ≡ takes sender (task_at (tasks_in b.now) to).state }
{
    let i = fields::place(to);
    if 15 < i {
        return false;
    }
    if 9 != b[i * 26 + 1] {
        return false;
    }
    let from = b[AWAITED + i];
    if from == 0 {
        return true;
    }
    from == sender
}

// Those that wait are in range and descend, and no addressee waits for one of them; free has bit k where task k waits
// for no message.
fn letters_right(b: &[u8; IMAGE], sent: u8, count: u8, free: u32) -> bool
    requires { (sent ≤ 32) × (count ≤ 16) × ((k : ℕ) → k ≤ count → is_set free k ≡ true → (0 < k)
        × (is_of await_message (task_at (tasks_in b.now) k).state ≡ false)) }
    ensures { result ≡ letters_right (tasks_in b.now) count 15 (take sent (messages_in b.now)) }
{
    let mut p: u8 = 15;
    for i in 0..sent {
        let at = MESSAGES + (i as usize) * 11;
        let to = b[at];
        let sender = b[at + 1];
        let priority = b[at + 2];
        if count < to {
            return false;
        }
        if (free >> (to as u32)) & 1 == 0 {
            if to == 0 {
                return false;
            }
            if is_taken(b, to, sender) {
                return false;
            }
        }
        if sender == 0 {
            return false;
        }
        if count < sender {
            return false;
        }
        if p < priority {
            return false;
        }
        p = priority;
    }
    true
}

// The messages keep their rules. The set is of those who wait for a message, bit i for the i-th entry's task.
pub(crate) fn sent_right(b: &[u8; IMAGE], sent: u8, count: u8, receivers: u16) -> bool
    requires { (count ≤ 16) × Marked count receivers (passed (is_of await_message) (tasks_in b.now)) }
    ensures { result ≡ sent_right (load_of b.now).tasks count sent
        (load_of b.now).rest.messages }
{
    if 32 < sent {
        return false;
    }
    if !letters_right(b, sent, count, ((65535 - receivers) as u32) << 1) {
        return false;
    }
    zeros::are_zero(b, MESSAGES + (sent as usize) * 11, SENT)
}

// The mail of the task after number i is in range, and a dormant one has none. Zeros are.
fn one_mail(b: &[u8; IMAGE], i: usize, count: u8) -> bool
    requires { i < 16 }
    ensures { result ≡ mail_right_at (tasks_in b.now) count (mail_in b.now) (i + 1) }
{
    let at = MAIL + i * 9;
    if zeros::eight(b, at) | numbers::wide(b[at + 8]) == 0 {
        return true;
    }
    if count < b[at] {
        return false;
    }
    0 != b[i * 26 + 1]
}

// The mail of each task is in range, and a dormant one has none.
pub(crate) fn mail_right(b: &[u8; IMAGE], count: u8) -> bool
    ensures { result ≡ mail_right (load_of b.now).tasks count (load_of b.now).rest.mail }
{
    (0..16u8).all(|i| one_mail(b, i as usize, count))
}
