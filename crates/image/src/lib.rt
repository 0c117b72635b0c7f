// The table as bytes: what a board does with it, each on lent bytes; the crate board hands them on, and board_c to C.
#![tactic(auto)]

ghost use Rattle.records.specs.declared.TaskNo.{TaskNo};
ghost use Rattle.image.specs.EntryPoints.{MakesImage, CheckedImage, StepsImage, ReadsLamp};
ghost use Rattle.image.specs.Reasons.{ExplainsImage};
ghost use Rattle.image.specs.Mending.{MendsImage};

use executive::{configuration, levels};
use records::TaskNo;

pub mod answers;
mod changes;
mod checking;
mod deciding;
mod deeds;
mod doing;
mod entries;
mod fields;
mod laying;
mod letters;
mod lines;
pub mod loading;
mod making;
mod members;
mod mending;
mod moves;
mod moving;
pub mod numbers;
pub mod promises;
mod reasons;
mod ringing;
mod runs;
mod sound;
mod sound_entries;
mod sound_pool;
mod sound_post;
mod sound_queue;
mod sound_subs;
pub mod stepping;
pub mod storing;
mod timing;
mod waking;
mod zeros;

// The board's own number: a buffer that is to be written to has not the length it needs. It is judged before any
// other number.
pub const NO_ROOM: u8 = 30;

// 01's number for bytes that are no configuration.
const NO_CONFIGURATION: u8 = 2;

// Where the parts of an image begin: the tasks' entries at 0, then the queue, the numbers that stand alone from 432 on,
// the alarms, the pool, the word of the ready levels, the numbers that the tasks' states wait for, the subprograms, the
// messages, how many of them wait, the tasks' mail.
pub(crate) const QUEUE: usize = 416;

pub(crate) const ALARMS: usize = 448;

pub(crate) const POOL: usize = 704;

pub(crate) const LEVELS: usize = 896;

pub(crate) const AWAITED: usize = 898;

pub(crate) const SUBS: usize = 914;

pub(crate) const MESSAGES: usize = 1058;

pub(crate) const SENT: usize = 1410;

pub(crate) const MAIL: usize = 1411;

// The length of an image in bytes.
pub const IMAGE: usize = 1555;

// What the lamp reads where nothing is shown: no priority.
const LAMP_DARK: u8 = 16;

// The numbers that the functions below answer are those of the C interface, so they stay numbers.

// Makes a fresh table from configuration bytes: 0 and its image written; 30 where the buffer has not the image's
// length, 2 where they are no configuration, and then no byte is changed.
pub fn fresh(config: &[u8], image: &mut [u8]) -> u8
    ensures { MakesImage config.now image.old image.new result }
{
    let Some(b) = image.as_mut_array::<IMAGE>() else {
        return NO_ROOM;
    };
    if !configuration::is_configuration(config) {
        return NO_CONFIGURATION;
    }
    making::make(b, config);
    0
}

// Checks an image: 0 where it is that of a well-formed table, else 1.
pub fn check(image: &[u8]) -> u8
    ensures { CheckedImage image.now result }
{
    if sound::is_sound(image) {
        return 0;
    }
    1
}

// Takes a step: the answer's number, and the answer at the start of its buffer. Accepted (0), the image is rewritten;
// refused, none of its bytes is changed. Where the answer's buffer is shorter than 25 bytes: 30, and no byte of any
// buffer is changed.
pub fn step(image: &mut [u8], call: &[u8], answer: &mut [u8]) -> u8
    ensures { StepsImage image.old call.now answer.old image.new answer.new result }
{
    if answer.len() < 25 {
        return NO_ROOM;
    }
    let said = stepping::act(image, call);
    answers::put_answer(answer, said);
    said.number
}

// What the status lamp shows of an image: 0 to 15, the highest ready priority, or 16 for dark; 16 also where the bytes
// have not an image's length. It reads the two bytes of the word and nothing else, and checks nothing.
pub fn lamp(image: &[u8]) -> u8
    ensures { ReadsLamp image.now result }
{
    if image.len() != IMAGE {
        return LAMP_DARK;
    }
    let word = numbers::pair_in(image, LEVELS);
    levels::lamp(word).unwrap_or(LAMP_DARK)
}

// Tells why a task is not running: the answer's number, and the answer at the start of its buffer. Where that is
// shorter than 196 bytes: 30, and none of its bytes is changed. The image is only read.
pub fn why(image: &[u8], task: u8, out: &mut [u8]) -> u8
    ensures { ExplainsImage image.now (record { 0 = task }) out.old out.new result }
{
    if out.len() < 196 {
        return NO_ROOM;
    }
    let told = reasons::reasons_of(image, TaskNo(task));
    reasons::put_reasons(out, &told);
    told.number
}

// Mends an image: 0 and the mended image, with the list of what changed at the start of its buffer. Where that is
// shorter than 33 bytes: 30; where the bytes have not an image's length: 1; where clock, granule or task count is out
// of range: 17; and then no byte of any buffer is changed.
pub fn mend(image: &mut [u8], list: &mut [u8]) -> u8
    ensures { MendsImage image.old list.old image.new list.new result }
{
    if list.len() < 33 {
        return NO_ROOM;
    }
    let Some(b) = image.as_mut_array::<IMAGE>() else {
        return 1;
    };
    mending::mend_whole(b, list)
}
