// Loading: from the bytes of an image to the table. Any bytes load; those past the end read as 0.
ghost use Rattle.std.specs.Prelude.{◌≡◌, ℕ, ◌+◌, ◌≤◌, ◌<◌, length, get_or};
ghost use Rattle.image.specs.Blocks.{blocks};
ghost use Rattle.image.specs.Image.{state_in, task_from, line_from, alarm_from, request_from, sub_from, alarms_at, pool_at, subs_at, image_length, sub_length, Loads};
ghost use Rattle.image.specs.Image.{message_from, mail_from, messages_at, mails_at, message_length, mail_length};

use crate::{ALARMS, AWAITED, IMAGE, LEVELS, MAIL, MESSAGES, POOL, QUEUE, SENT, SUBS, numbers};
use executive::{Mail, Message, Millis, Mode, Request, Rest, State, Sub, Table, Task};
use records::{SubNo, TaskNo, Text};
use std::array::from_fn;

// The state of a kind, a time, a mask and a number. A byte that is no kind gives a wait for subprogram 255.
// The kinds are bytes of an image (docs/TABLE.md), and so numbers.
pub(crate) fn state_of(kind: u8, time: Millis, mask: u32, number: u8) -> State
    ensures { result ≡ state_in kind time mask number }
{
    match kind {
        0 => State::Dormant,
        1 => State::Ready,
        2 => State::Paused(time),
        3 => State::Due(time),
        4 => State::Flags(Mode::Any, mask),
        5 => State::Flags(Mode::All, mask),
        6 => State::AwaitStart,
        7 => State::AwaitEnd,
        8 => State::AwaitSub(SubNo(number)),
        9 => State::AwaitMessage(TaskNo(number)),
        _ => State::AwaitSub(SubNo(255)),
    }
}

// The task whose entry is the i-th.
pub(crate) fn task_in(bytes: &[u8], i: usize) -> Task
    requires { (i < 16) × (image_length ≤ length bytes.now) }
    ensures { result ≡ task_from bytes.now i }
{
    let at = i * 26;
    let own = numbers::byte_in(bytes, at);
    let kind_at = at + 1;
    let kind = numbers::byte_in(bytes, kind_at);
    let time_at = kind_at + 1;
    let time = numbers::long_in(bytes, time_at);
    let mask_at = time_at + 8;
    let mask = numbers::word_in(bytes, mask_at);
    let priority_at = mask_at + 4;
    let priority = numbers::byte_in(bytes, priority_at);
    let argument_at = priority_at + 1;
    let argument = numbers::pair_in(bytes, argument_at);
    let start_at = argument_at + 2;
    let start = numbers::long_in(bytes, start_at);
    let end_waiter = numbers::byte_in(bytes, start_at + 8);
    let awaited = numbers::byte_in(bytes, AWAITED + i);
    Task {
        own,
        state: state_of(kind, Millis(time), mask, awaited),
        priority,
        argument,
        start: Millis(start),
        end_waiter: TaskNo(end_waiter),
    }
}

// The request at a place.
pub(crate) fn request_in(bytes: &[u8], at: usize) -> Request
    requires { at + 6 ≤ length bytes.now }
    ensures { result ≡ request_from bytes.now at }
{
    let target = numbers::byte_in(bytes, at);
    let priority_at = at + 1;
    let priority = numbers::byte_in(bytes, priority_at);
    let argument_at = priority_at + 1;
    let argument = numbers::pair_in(bytes, argument_at);
    let start_waiter_at = argument_at + 2;
    let start_waiter = numbers::byte_in(bytes, start_waiter_at);
    let end_waiter = numbers::byte_in(bytes, start_waiter_at + 1);
    Request {
        target: TaskNo(target),
        priority,
        argument,
        start_waiter: TaskNo(start_waiter),
        end_waiter: TaskNo(end_waiter),
    }
}

fn tasks_in(bytes: &[u8]) -> [Task; 16]
    requires { image_length ≤ length bytes.now }
    ensures { result ≡ blocks (task_from bytes.now) 1 16 0 }
{
    from_fn(|i| task_in(bytes, i))
}

// The sixteen places of a line: of the queue, of a subprogram.
fn line_in(bytes: &[u8], at: usize) -> [TaskNo; 16]
    requires { at + 16 ≤ length bytes.now }
    ensures { result ≡ line_from bytes.now at }
{
    from_fn(|i| TaskNo(numbers::byte_in(bytes, at + i)))
}

fn alarms_in(bytes: &[u8]) -> [Millis; 32]
    requires { image_length ≤ length bytes.now }
    ensures { result ≡ blocks (alarm_from bytes.now) 8 32 alarms_at }
{
    from_fn(|i| Millis(numbers::long_in(bytes, ALARMS + i * 8)))
}

fn pool_in(bytes: &[u8]) -> [Request; 32]
    requires { image_length ≤ length bytes.now }
    ensures { result ≡ blocks (request_from bytes.now) 6 32 pool_at }
{
    from_fn(|i| request_in(bytes, POOL + i * 6))
}

// The subprogram at a place.
pub(crate) fn sub_in(bytes: &[u8], at: usize) -> Sub
    requires { at + 18 ≤ length bytes.now }
    ensures { result ≡ sub_from bytes.now at }
{
    let holder = numbers::byte_in(bytes, at);
    let waiting = numbers::byte_in(bytes, at + 1);
    let line = line_in(bytes, at + 2);
    Sub {
        holder: TaskNo(holder),
        line,
        waiting,
    }
}

fn subs_in(bytes: &[u8]) -> [Sub; 8]
    requires { image_length ≤ length bytes.now }
    ensures { result ≡ blocks (sub_from bytes.now) sub_length 8 subs_at }
{
    from_fn(|i| sub_in(bytes, SUBS + i * 18))
}

// The waiting message at a place.
pub(crate) fn message_in(bytes: &[u8], at: usize) -> Message
    requires { at + 11 ≤ length bytes.now }
    ensures { result ≡ message_from bytes.now at }
{
    let to = numbers::byte_in(bytes, at);
    let sender_at = at + 1;
    let sender = numbers::byte_in(bytes, sender_at);
    let priority_at = sender_at + 1;
    let priority = numbers::byte_in(bytes, priority_at);
    let text = numbers::long_in(bytes, priority_at + 1);
    Message {
        to: TaskNo(to),
        sender: TaskNo(sender),
        priority,
        text: Text(text),
    }
}

fn messages_in(bytes: &[u8]) -> [Message; 32]
    requires { image_length ≤ length bytes.now }
    ensures { result ≡ blocks (message_from bytes.now) message_length 32 messages_at }
{
    from_fn(|i| message_in(bytes, MESSAGES + i * 11))
}

// The mail at a place.
pub(crate) fn mail_at(bytes: &[u8], at: usize) -> Mail
    requires { at + 9 ≤ length bytes.now }
    ensures { result ≡ mail_from bytes.now at }
{
    let sender = numbers::byte_in(bytes, at);
    let text = numbers::long_in(bytes, at + 1);
    Mail {
        sender: TaskNo(sender),
        text: Text(text),
    }
}

fn mail_in(bytes: &[u8]) -> [Mail; 16]
    requires { image_length ≤ length bytes.now }
    ensures { result ≡ blocks (mail_from bytes.now) mail_length 16 mails_at }
{
    from_fn(|i| mail_at(bytes, MAIL + i * 9))
}

// The table of bytes that are as many as an image has, or more.
pub(crate) fn load_whole(bytes: &[u8]) -> Table
    requires { image_length ≤ length bytes.now }
    ensures { Loads bytes.now result }
{
    let tasks = tasks_in(bytes);
    let queue = line_in(bytes, QUEUE);
    let alarms = alarms_in(bytes);
    let pool = pool_in(bytes);
    let subs = subs_in(bytes);
    let messages = messages_in(bytes);
    let mail = mail_in(bytes);
    let clock = numbers::long_in(bytes, 436);
    let rest = Rest {
        count: numbers::byte_in(bytes, 433),
        granule: numbers::byte_in(bytes, 434),
        clock: Millis(clock),
        flags: numbers::word_in(bytes, 444),
        alarms,
        pool,
        queued: numbers::byte_in(bytes, 435),
        subs,
        messages,
        sent: numbers::byte_in(bytes, SENT),
        mail,
    };
    Table {
        tasks,
        queue,
        ready: numbers::byte_in(bytes, 432),
        levels: numbers::pair_in(bytes, LEVELS),
        rest,
    }
}

// As many bytes as an image has: those that are there, and 0 behind them.
fn padded(bytes: &[u8]) -> [u8; IMAGE]
    requires { length bytes.now < image_length }
    ensures { (length result ≡ image_length) × ((i : ℕ) → get_or result i 0 ≡ get_or bytes.now i 0) }
{
    let mut image = [0u8; IMAGE];
    image[..bytes.len()].copy_from_slice(bytes);
    image
}

// The table of any bytes.
pub fn load(bytes: &[u8]) -> Table
    ensures { Loads bytes.now result }
{
    if IMAGE <= bytes.len() {
        return load_whole(bytes);
    }
    let image = padded(bytes);
    load_whole(&image)
}
