// The second engine's table as bytes, and its entry points, on byte slices and numbers only; `scan_board_c` has them
// under their symbols for C.
#![tactic(auto)]

ghost use Rattle.scan_board.specs.EntryPoints.{MakesScan, CheckedScan, StepsScan};

use image::{NO_ROOM, answers};
use scan::making;

mod images;
mod promises;

// The length of an image in bytes: the board's, then sixteen arrival numbers and the last one given, four each.
pub const IMAGE: usize = image::IMAGE + 68;

// Makes a fresh table from configuration bytes: 0 and its image written; 30 where the buffer has not the image's
// length, 2 where they are no configuration, and then no byte is changed.
// Its number is the C interface's.
pub fn quermanic_scan_fresh(config: &[u8], image: &mut [u8]) -> u8
    ensures { MakesScan config.now image.old image.new result }
{
    if image.len() != IMAGE {
        return NO_ROOM;
    }
    let made = making::fresh(config);
    if made.number != 0 {
        return made.number;
    }
    images::put_scan(image, made.table);
    0
}

// Checks an image: 0 where it is that of a well-formed table, else 1.
// Its number is the C interface's.
pub fn quermanic_scan_check(image: &[u8]) -> u8
    ensures { CheckedScan image.now result }
{
    if !images::is_scan(image) {
        return 1;
    }
    images::load(image).check()
}

// Takes a step: the answer's number, and the answer at the start of its buffer. Accepted (0), the image is rewritten;
// refused, none of its bytes is changed. Where the answer's buffer is shorter than 25 bytes: 30, and no byte of any
// buffer is changed.
// Its number is the C interface's.
pub fn quermanic_scan_step(image: &mut [u8], call: &[u8], answer: &mut [u8]) -> u8
    ensures { StepsScan image.old call.now answer.old image.new answer.new result }
{
    if answer.len() < 25 {
        return NO_ROOM;
    }
    if !images::is_scan(image) {
        answers::give(answer, executive::answers::no_table());
        return 1;
    }
    let outcome = images::load(image).step(call);
    answers::give(answer, outcome.answer);
    if outcome.answer.number != 0 {
        return outcome.answer.number;
    }
    images::put_scan(image, outcome.table);
    0
}
