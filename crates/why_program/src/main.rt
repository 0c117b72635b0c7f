// The why program: reads a question from standard input, a task's number as one byte and then an image, and writes to
// standard output why that task is not running. A read or a write that fails ends it with that error.
#![tactic(auto)]

use executive::Millis;
use image::loading;
use records::TaskNo;
use std::io;
use std::io::Write;
use why::{Reasons, following, telling};

// The bytes of a question: the task's number and an image.
const QUESTION: usize = 1 + image::IMAGE;

// Room for any answer.
const ROOM: usize = 32768;

// Writes an answer.
fn tell(reasons: Reasons, clock: Millis, writer: &mut impl Write) -> io::Result<()> {
    let mut out = [0u8; ROOM];
    let n = telling::tell(reasons, clock, &mut out);
    writer.write_all(&out[..n])
}

// Answers a question: 1 where it has another length, or its bytes are no image of a well-formed table.
fn answer(question: &[u8], writer: &mut impl Write) -> io::Result<()> {
    match question {
        [task, image @ ..] if image::check(image) == 0 => {
            let table = loading::load(image);
            let reasons = following::explain(table, TaskNo(*task));
            tell(reasons, table.rest.clock, writer)
        }
        _ => tell(following::no_table(), Millis(0), writer),
    }
}

// One byte more than a question has is read, so that a longer one is told apart.
fn main(rt: HostRuntime) -> io::Result<()> {
    let mut question = [0u8; QUESTION + 1];
    let n = input::read_full(&mut rt.stdin(), &mut question)?;
    answer(&question[..n], &mut rt.stdout())
}
