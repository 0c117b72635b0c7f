// Why a task of an image is not running: the answer, and its bytes.
ghost use Rattle.std.specs.Prelude.{◌≡◌, ◌≤◌, length};
ghost use Rattle.image.specs.Blocks.{written};
ghost use Rattle.image.specs.Reasons.{cause_kind, waited_on, mode_byte, own_byte, until_of, step_bytes, reasons_length, reasons_bytes, reasons_to};

use crate::laying::Block;
use crate::{checking, laying, loading, numbers, storing};
use executive::Mode;
use records::TaskNo;
use why::{Cause, Reasons, Step, following};

// A cause's number, a byte of the C interface.
fn kind_of(cause: Cause) -> u8
    ensures { result ≡ cause_kind cause }
{
    match cause {
        Cause::Dormant => 0,
        Cause::Active => 1,
        Cause::Ready(_) => 2,
        Cause::Paused(_) => 3,
        Cause::Due(_) => 4,
        Cause::Flags(_, _) => 5,
        Cause::Start(_, _) => 6,
        Cause::EndOfRequest(_, _) => 7,
        Cause::EndOfRun(_) => 8,
        Cause::Subprogram(_, _) => 9,
        Cause::Message(_) => 10,
    }
}

// The task that is waited on; nobody where it is none.
fn waited_on(cause: Cause) -> TaskNo
    ensures { result ≡ waited_on cause }
{
    match cause {
        Cause::Start(_, task)
        | Cause::EndOfRequest(_, task)
        | Cause::EndOfRun(task)
        | Cause::Subprogram(_, task) => task,
        _ => TaskNo(0),
    }
}

// 0 for any, 1 for all, in a byte of the C interface.
fn mode_byte(mode: Mode) -> u8
    ensures { result ≡ mode_byte mode }
{
    match mode {
        Mode::Any => 0,
        Mode::All => 1,
    }
}

// How many are ahead, the mode of a wait for flags, a request's place, a subprogram's number, or a message's sender.
fn own_byte(cause: Cause) -> u8
    ensures { result ≡ own_byte cause }
{
    match cause {
        Cause::Ready(ahead) => ahead,
        Cause::Flags(mode, _) => mode_byte(mode),
        Cause::Start(place, _) | Cause::EndOfRequest(place, _) => place,
        Cause::Subprogram(m, _) => m.0,
        Cause::Message(sender) => sender.0,
        Cause::Dormant | Cause::Active | Cause::Paused(_) | Cause::Due(_) | Cause::EndOfRun(_) => 0,
    }
}

// Until when, or the flags that are missing.
fn until_of(cause: Cause) -> u64
    ensures { result ≡ until_of cause }
{
    match cause {
        Cause::Paused(time) | Cause::Due(time) => time.0,
        Cause::Flags(_, missing) => u64::from(missing),
        _ => 0,
    }
}

// A step of an answer: the task and its cause.
impl Block for Step {
    ghost WIDTH = { 12 };

    ghost bytes = { step_bytes };

    const WIDTH: usize = 12;

    fn put(&self, out: &mut [u8], at: usize) {
        let cause = self.cause;
        storing::put_both(out, at, self.task.0, kind_of(cause));
        storing::put_both(out, at + 2, waited_on(cause).0, own_byte(cause));
        numbers::put_long(out, at + 4, until_of(cause));
    }
}

// Writes an answer over 196 bytes: the numbers that stand alone, and behind them the sixteen steps.
pub(crate) fn put_reasons(out: &mut [u8], reasons: &Reasons)
    requires { reasons_length ≤ length out.old }
    ensures { out.new ≡ written out.old 0 (reasons_bytes reasons.now) }
{
    storing::put_both(out, 0, reasons.number, reasons.length);
    storing::put_both(out, 2, reasons.ring, 0);
    laying::put_row(out, 4, &reasons.steps);
}

// The answer about a task of an image; bytes that are no image are no well-formed table.
pub(crate) fn reasons_of(image: &[u8], task: TaskNo) -> Reasons
    ensures { result ≡ reasons_to image.now task }
{
    if !checking::is_image(image) {
        return following::no_table();
    }
    let table = loading::load_whole(image);
    following::explain(table, task)
}
