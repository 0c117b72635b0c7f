// The board library: the entry points, on byte slices and numbers only; `board_c` has them under their symbols for C.
// Each is the image's own function of that name: nothing is decided here, so that what is built for a board is proved
// in seconds once `image` is.
#![tactic(auto)]

ghost use Rattle.image.specs.EntryPoints.{MakesImage, CheckedImage, StepsImage, ReadsLamp};
ghost use Rattle.image.specs.Reasons.{ExplainsImage};
ghost use Rattle.image.specs.Mending.{MendsImage};

// Makes a fresh table from configuration bytes: 0 and its image written; 30 where the buffer has not the image's
// length, 2 where they are no configuration, and then no byte is changed.
pub fn quermanic_fresh(config: &[u8], image: &mut [u8]) -> u8
    ensures { MakesImage config.now image.old image.new result }
{
    image::fresh(config, image)
}

// Checks an image: 0 where it is that of a well-formed table, else 1.
pub fn quermanic_check(image: &[u8]) -> u8
    ensures { CheckedImage image.now result }
{
    image::check(image)
}

// Takes a step: the answer's number, and the answer at the start of its buffer. Accepted (0), the image is rewritten;
// refused, none of its bytes is changed. Where the answer's buffer is shorter than 25 bytes: 30, and no byte of any
// buffer is changed.
pub fn quermanic_step(image: &mut [u8], call: &[u8], answer: &mut [u8]) -> u8
    ensures { StepsImage image.old call.now answer.old image.new answer.new result }
{
    image::step(image, call, answer)
}

// What the status lamp shows of an image: 0 to 15, the highest ready priority, or 16 for dark; 16 also where the bytes
// have not an image's length. It reads the two bytes of the word and nothing else, and checks nothing.
pub fn quermanic_lamp(image: &[u8]) -> u8
    ensures { ReadsLamp image.now result }
{
    image::lamp(image)
}

// Tells why a task is not running: the answer's number, and the answer at the start of its buffer. Where that is
// shorter than 196 bytes: 30, and none of its bytes is changed. The image is only read.
pub fn quermanic_why(image: &[u8], task: u8, out: &mut [u8]) -> u8
    ensures { ExplainsImage image.now (record { 0 = task }) out.old out.new result }
{
    image::why(image, task, out)
}

// Mends an image: 0 and the mended image, with the list of what changed at the start of its buffer. Where that is
// shorter than 33 bytes: 30; where the bytes have not an image's length: 1; where clock, granule or task count is out
// of range: 17; and then no byte of any buffer is changed.
pub fn quermanic_mend(image: &mut [u8], list: &mut [u8]) -> u8
    ensures { MendsImage image.old list.old image.new list.new result }
{
    image::mend(image, list)
}
