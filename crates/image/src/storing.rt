// Storing: from a table to its image, in a lent buffer.
ghost use Rattle.std.specs.Prelude.{◌≡◌, [], ◌∷◌, ◌+◌, ◌≤◌, length};
ghost use Rattle.image.specs.Blocks.{row, written};
ghost use Rattle.image.specs.Image.{task_bytes, place_bytes, alarm_bytes, request_bytes, awaited_bytes, sub_bytes, head_at, awaited_at, task_length, sub_length, image_length, image_of, Stores};
ghost use Rattle.image.specs.Image.{message_bytes, mail_bytes, messages_at, message_length, mail_length, post_bytes};
ghost use Rattle.image.specs.Coding.{front_bytes, run_bytes, head_of};
ghost use Rattle.image.specs.Acting.{Images};

use crate::laying::Block;
use crate::{
    ALARMS, AWAITED, IMAGE, LEVELS, MAIL, MESSAGES, NO_ROOM, POOL, QUEUE, SENT, SUBS, laying,
    numbers,
};
use executive::{Mail, Message, Millis, Request, Rest, State, Sub, Table, Task, states};
use records::TaskNo;

// Writes two bytes from a place on.
pub(crate) fn put_both(out: &mut [u8], at: usize, a: u8, b: u8)
    requires { at + 2 ≤ length out.old }
    ensures { out.new ≡ written out.old at (a ∷ b ∷ []) }
{
    out[at] = a;
    out[at + 1] = b;
}

// Writes the front of a task's entry, its own priority and its state, over 14 bytes.
pub(crate) fn put_state(out: &mut [u8], at: usize, own: u8, state: State)
    requires { at + 14 ≤ length out.old }
    ensures { out.new ≡ written out.old at (front_bytes own state) }
{
    let kind = states::kind_of(state);
    let time = states::time_of(state);
    let mask = states::mask_of(state);
    put_both(out, at, own, kind);
    numbers::put_long(out, at + 2, time.0);
    numbers::put_word(out, at + 10, mask);
}

// Writes the rest of a task's entry, of its run, over 12 bytes.
pub(crate) fn put_run(out: &mut [u8], at: usize, task: Task)
    requires { at + 12 ≤ length out.old }
    ensures { out.new ≡ written out.old at (run_bytes task) }
{
    numbers::put_byte(out, at, task.priority);
    numbers::put_pair(out, at + 1, task.argument);
    numbers::put_long(out, at + 3, task.start.0);
    numbers::put_byte(out, at + 11, task.end_waiter.0);
}

// A task's entry.
impl Block for Task {
    ghost WIDTH = { task_length };

    ghost bytes = { task_bytes };

    const WIDTH: usize = 26;

    fn put(&self, out: &mut [u8], at: usize) {
        put_state(out, at, self.own, self.state);
        put_run(out, at + 14, *self);
    }
}

// Writes a request over 6 bytes.
pub(crate) fn put_request(out: &mut [u8], at: usize, request: Request)
    requires { at + 6 ≤ length out.old }
    ensures { out.new ≡ written out.old at (request_bytes request) }
{
    put_both(out, at, request.target.0, request.priority);
    numbers::put_pair(out, at + 2, request.argument);
    put_both(out, at + 4, request.start_waiter.0, request.end_waiter.0);
}

// A request of the pool.
impl Block for Request {
    ghost WIDTH = { 6 };

    ghost bytes = { request_bytes };

    const WIDTH: usize = 6;

    fn put(&self, out: &mut [u8], at: usize) {
        put_request(out, at, *self);
    }
}

// Writes the numbers that stand alone over 16 bytes.
fn put_head(out: &mut [u8; IMAGE], ready: u8, rest: &Rest)
    ensures { out.new ≡ written out.old head_at (head_of ready rest.now) }
{
    put_both(out, 432, ready, rest.count);
    put_both(out, 434, rest.granule, rest.queued);
    numbers::put_long(out, 436, rest.clock.0);
    numbers::put_word(out, 444, rest.flags);
}

// A place of a line: of the queue, of a subprogram.
impl Block for TaskNo {
    ghost WIDTH = { 1 };

    ghost bytes = { place_bytes };

    const WIDTH: usize = 1;

    fn put(&self, out: &mut [u8], at: usize) {
        numbers::put_byte(out, at, self.0);
    }
}

// Writes an alarm's time over 8 bytes.
pub(crate) fn put_alarm(out: &mut [u8], at: usize, time: Millis)
    requires { at + 8 ≤ length out.old }
    ensures { out.new ≡ written out.old at (alarm_bytes time) }
{
    numbers::put_long(out, at, time.0);
}

// An alarm's time.
impl Block for Millis {
    ghost WIDTH = { 8 };

    ghost bytes = { alarm_bytes };

    const WIDTH: usize = 8;

    fn put(&self, out: &mut [u8], at: usize) {
        put_alarm(out, at, *self);
    }
}

// Writes the number that a task's state waits for.
pub(crate) fn put_awaited(out: &mut [u8], at: usize, task: Task)
    requires { at + 1 ≤ length out.old }
    ensures { out.new ≡ written out.old at (awaited_bytes task) }
{
    let state = task.state;
    let number = states::awaited_of(state);
    numbers::put_byte(out, at, number);
}

// Writes the numbers that the tasks' states wait for.
fn put_all_awaited(out: &mut [u8; IMAGE], tasks: &[Task; 16])
    ensures { out.new ≡ written out.old awaited_at (row awaited_bytes tasks.now) }
{
    for (i, task) in tasks.iter().enumerate() {
        put_awaited(out, AWAITED + i, *task);
    }
}

// A subprogram: its holder, how many wait, and its line.
impl Block for Sub {
    ghost WIDTH = { sub_length };

    ghost bytes = { sub_bytes };

    const WIDTH: usize = 18;

    fn put(&self, out: &mut [u8], at: usize) {
        put_both(out, at, self.holder.0, self.waiting);
        laying::put_row(out, at + 2, &self.line);
    }
}

// Writes a waiting message over 11 bytes.
pub(crate) fn put_message(out: &mut [u8], at: usize, message: Message)
    requires { at + 11 ≤ length out.old }
    ensures { out.new ≡ written out.old at (message_bytes message) }
{
    put_both(out, at, message.to.0, message.sender.0);
    numbers::put_byte(out, at + 2, message.priority);
    numbers::put_long(out, at + 3, message.text.0);
}

// A waiting message.
impl Block for Message {
    ghost WIDTH = { message_length };

    ghost bytes = { message_bytes };

    const WIDTH: usize = 11;

    fn put(&self, out: &mut [u8], at: usize) {
        put_message(out, at, *self);
    }
}

// Writes a task's mail over 9 bytes.
pub(crate) fn put_mail(out: &mut [u8], at: usize, mail: Mail)
    requires { at + 9 ≤ length out.old }
    ensures { out.new ≡ written out.old at (mail_bytes mail) }
{
    numbers::put_byte(out, at, mail.sender.0);
    numbers::put_long(out, at + 1, mail.text.0);
}

// A task's mail.
impl Block for Mail {
    ghost WIDTH = { mail_length };

    ghost bytes = { mail_bytes };

    const WIDTH: usize = 9;

    fn put(&self, out: &mut [u8], at: usize) {
        put_mail(out, at, *self);
    }
}

// Writes the messages, how many of them wait, and the tasks' mail.
fn put_post(out: &mut [u8; IMAGE], rest: &Rest)
    ensures sizes { (length rest.now.messages ≡ 32) × (length rest.now.mail ≡ 16) }
    ensures value { out.new ≡ written out.old messages_at (post_bytes rest.now) }
{
    laying::put_row(out, MESSAGES, &rest.messages);
    numbers::put_byte(out, SENT, rest.sent);
    laying::put_row(out, MAIL, &rest.mail);
}

// Writes the image over a buffer of its length.
pub(crate) fn put_table(out: &mut [u8; IMAGE], table: &Table)
    ensures { out.new ≡ image_of table.now }
{
    laying::put_row(out, 0, &table.tasks);
    laying::put_row(out, QUEUE, &table.queue);
    put_head(out, table.ready, &table.rest);
    laying::put_row(out, ALARMS, &table.rest.alarms);
    laying::put_row(out, POOL, &table.rest.pool);
    numbers::put_pair(out, LEVELS, table.levels);
    put_all_awaited(out, &table.tasks);
    laying::put_row(out, SUBS, &table.rest.subs);
    put_post(out, &table.rest);
}

// Stores a table: 0 and its image in out, or 30 where out has not the image's length, and no byte is changed. These are
// numbers of the C interface, so they stay numbers.
pub fn store(table: Table, out: &mut [u8]) -> u8
    ensures { Stores table out.old out.new result }
{
    let Some(image) = out.as_mut_array::<IMAGE>() else {
        return NO_ROOM;
    };
    put_table(image, &table);
    0
}

// The image of a table.
pub fn image_of(table: Table) -> [u8; IMAGE]
    ensures { Images table result }
{
    let mut image = [0u8; IMAGE];
    put_table(&mut image, &table);
    image
}
