// The second engine's library for C: the entry points under their symbols. Each is the function of that name of
// `scan_board`.
#![tactic(auto)]

ghost use Rattle.scan_board.specs.EntryPoints.{MakesScan, CheckedScan, StepsScan};

// See `scan_board::quermanic_scan_fresh`.
#[unsafe(no_mangle)]
pub extern "C" fn quermanic_scan_fresh(config: &[u8], image: &mut [u8]) -> u8
    ensures { MakesScan config.now image.old image.new result }
{
    scan_board::quermanic_scan_fresh(config, image)
}

// See `scan_board::quermanic_scan_check`.
#[unsafe(no_mangle)]
pub extern "C" fn quermanic_scan_check(image: &[u8]) -> u8
    ensures { CheckedScan image.now result }
{
    scan_board::quermanic_scan_check(image)
}

// See `scan_board::quermanic_scan_step`.
#[unsafe(no_mangle)]
pub extern "C" fn quermanic_scan_step(image: &mut [u8], call: &[u8], answer: &mut [u8]) -> u8
    ensures { StepsScan image.old call.now answer.old image.new answer.new result }
{
    scan_board::quermanic_scan_step(image, call, answer)
}
