// The board library for C: the entry points under their symbols. Each is the function of that name of `board`.
#![tactic(auto)]

ghost use Rattle.image.specs.EntryPoints.{MakesImage, CheckedImage, StepsImage, ReadsLamp};
ghost use Rattle.image.specs.Reasons.{ExplainsImage};
ghost use Rattle.image.specs.Mending.{MendsImage};

// See `board::quermanic_fresh`.
#[unsafe(no_mangle)]
pub extern "C" fn quermanic_fresh(config: &[u8], image: &mut [u8]) -> u8
    ensures { MakesImage config.now image.old image.new result }
{
    board::quermanic_fresh(config, image)
}

// See `board::quermanic_check`.
#[unsafe(no_mangle)]
pub extern "C" fn quermanic_check(image: &[u8]) -> u8
    ensures { CheckedImage image.now result }
{
    board::quermanic_check(image)
}

// See `board::quermanic_step`.
#[unsafe(no_mangle)]
pub extern "C" fn quermanic_step(image: &mut [u8], call: &[u8], answer: &mut [u8]) -> u8
    ensures { StepsImage image.old call.now answer.old image.new answer.new result }
{
    board::quermanic_step(image, call, answer)
}

// See `board::quermanic_lamp`.
#[unsafe(no_mangle)]
pub extern "C" fn quermanic_lamp(image: &[u8]) -> u8
    ensures { ReadsLamp image.now result }
{
    board::quermanic_lamp(image)
}

// See `board::quermanic_why`.
#[unsafe(no_mangle)]
pub extern "C" fn quermanic_why(image: &[u8], task: u8, out: &mut [u8]) -> u8
    ensures { ExplainsImage image.now (record { 0 = task }) out.old out.new result }
{
    board::quermanic_why(image, task, out)
}

// See `board::quermanic_mend`.
#[unsafe(no_mangle)]
pub extern "C" fn quermanic_mend(image: &mut [u8], list: &mut [u8]) -> u8
    ensures { MendsImage image.old list.old image.new list.new result }
{
    board::quermanic_mend(image, list)
}
