// Writing: from a call to the bytes of its record, at the start of a lent buffer.
ghost use Rattle.std.specs.Prelude.{◌≡◌, ◌∷◌, ◌++◌, ◌≤◌, length, take, drop, replicate};
ghost use Rattle.records.specs.Writing.{Encodes, Writes};
ghost use Rattle.records.specs.declared.Call.TheVariants as call;

use crate::{Call, Refusal, TaskNo, Text};

// The bytes of a record, with zeros after them, and their number.
#[derive(Clone, Copy)]
struct Encoded([u8; 10], usize);

// A record of up to four bytes.
fn few(a: u8, b: u8, c: u8, d: u8, n: usize) -> Encoded
    ensures { (result.0 ≡ a ∷ b ∷ c ∷ d ∷ replicate 6 0) × (result.1 ≡ n) }
{
    Encoded([a, b, c, d, 0, 0, 0, 0, 0, 0], n)
}

// The record of 05, whose argument is two bytes.
fn start_record(option: u8, task: TaskNo, argument: u16) -> Encoded
    ensures { Encodes (call.StartOrQueue option task argument) result.0 result.1 }
{
    let [high, low] = argument.to_be_bytes();
    Encoded([0x05, option, task.0, high, low, 0, 0, 0, 0, 0], 5)
}

// The record of 0A, whose mask is four bytes.
fn wait_record(mode: u8, mask: u32) -> Encoded
    ensures { Encodes (call.Wait mode mask) result.0 result.1 }
{
    let [a, b, c, d] = mask.to_be_bytes();
    Encoded([0x0A, mode, a, b, c, d, 0, 0, 0, 0], 6)
}

// The record of 14, whose text is eight bytes.
fn send_record(task: TaskNo, text: Text) -> Encoded
    ensures { Encodes (call.Send task text) result.0 result.1 }
{
    let [a, b, c, d, e, f, g, h] = text.0.to_be_bytes();
    Encoded([0x14, task.0, a, b, c, d, e, f, g, h], 10)
}

// The record of a call.
fn encode(call: Call) -> Encoded
    ensures { Encodes call result.0 result.1 }
{
    match call {
        Call::Terminate => few(0x00, 0, 0, 0, 1),
        Call::Restart { parameter, count } => few(0x01, parameter, count, 0, 3),
        Call::Pause { unit, count } => few(0x02, unit, count, 0, 3),
        Call::CancelPause { task } => few(0x03, task.0, 0, 0, 2),
        Call::StartIfDormant { option, task } => few(0x04, option, task.0, 0, 3),
        Call::StartOrQueue {
            option,
            task,
            argument,
        } => start_record(option, task, argument),
        Call::Flag { operation, flag } => few(0x09, operation, flag.0, 0, 3),
        Call::Wait { mode, mask } => wait_record(mode, mask),
        Call::Alarm { unit, count, flag } => few(0x0B, unit, count, flag.0, 4),
        Call::Tick => few(0x80, 0, 0, 0, 1),
        Call::Granule { granule } => few(0x40, granule, 0, 0, 2),
        Call::Task { own, mark } => few(0x41, own, mark, 0, 3),
        Call::End => few(0x42, 0, 0, 0, 1),
        Call::Enter { subprogram } => few(0x06, subprogram.0, 0, 0, 2),
        Call::Exit { subprogram } => few(0x07, subprogram.0, 0, 0, 2),
        Call::Send { task, text } => send_record(task, text),
        Call::Receive { task } => few(0x15, task.0, 0, 0, 2),
    }
}

// Puts a call's record at the start of out, whose bytes after it keep their content. Refused with 20 where out is
// shorter than the record: then no byte changes.
pub fn write(call: Call, out: &mut [u8]) -> Result<usize, Refusal>
    ensures { Writes call out.old out.new result }
{
    let e = encode(call);
    let n = e.1;
    if out.len() < n {
        return Err(Refusal::BufferShort);
    }
    out[..n].copy_from_slice(&e.0[..n]);
    Ok(n)
}
