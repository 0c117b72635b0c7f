// A step's answer as bytes.
ghost use Rattle.std.specs.Prelude.{◌≡◌, cond, ◌≤◌, ltb, length};
ghost use Rattle.image.specs.Blocks.{written};
ghost use Rattle.image.specs.EntryPoints.{answer_length, answer_bytes};

use crate::{numbers, storing};
use executive::Answer;

// Writes an answer over 25 bytes: number, Z, V, C, the active task, the ready tasks passed over, the argument, the
// grid times passed over, the sender and the text of the message that is handed out.
pub(crate) fn put_answer(out: &mut [u8], answer: Answer)
    requires { answer_length ≤ length out.old }
    ensures { out.new ≡ written out.old 0 (answer_bytes answer) }
{
    storing::put_both(out, 0, answer.number, u8::from(answer.z));
    storing::put_both(out, 2, u8::from(answer.v), u8::from(answer.c));
    storing::put_both(out, 4, answer.active.0, answer.walked);
    numbers::put_pair(out, 6, answer.argument);
    numbers::put_long(out, 8, answer.skipped);
    numbers::put_byte(out, 16, answer.sender.0);
    numbers::put_long(out, 17, answer.text.0);
}

// Gives an answer in a lent buffer, at its start; one that is too short is kept.
pub fn give(out: &mut [u8], answer: Answer)
    ensures { out.new ≡ cond (ltb (length out.old) answer_length) out.old (written out.old 0 (answer_bytes answer)) }
{
    if out.len() < 25 {
        return;
    }
    put_answer(out, answer);
}
