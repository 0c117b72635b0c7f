// When reading or writing a block is refused, in document 02's order: first by its place and the list, then by the
// call's numbers.
ghost use Rattle.std.specs.Prelude.{◌≡◌, cond, ◌||◌, [], ◌∷◌, ltb, eqb};
ghost use Rattle.records.specs.Firsts.{first_of};
ghost use Rattle.records.specs.Calls.{fields_of};
ghost use Rattle.records.specs.Refusals.{number_in};
ghost use Rattle.blocks.specs.Types.{skips_or_days, in_days};
ghost use Rattle.blocks.specs.Refusals.{is_outside, by_place, by_numbers};
ghost use Rattle.blocks.specs.Writing.{form_for};

use crate::lists;
use records::{Call, Refusal};

// The longest image, in bytes.
const LONGEST: usize = 65536;

// Whether an image of this length is too long, or the address is not in it.
pub(crate) fn is_outside(n: usize, address: usize) -> bool
    ensures { result ≡ is_outside n address }
{
    if LONGEST < n {
        return true;
    }
    n <= address
}

// What refuses a block of this length, 0 where there is none, at an address of an image of length n, with this list.
pub(crate) fn by_place(n: usize, address: usize, length: usize, list: &[u16]) -> Result<(), Refusal>
    ensures { number_in result ≡ first_of (by_place n address length list.now) }
{
    if is_outside(n, address) {
        return Err(Refusal::OutsideImage);
    }
    if length == 0 {
        return Err(Refusal::UnknownKind);
    }
    if n - address < length {
        return Err(Refusal::OutsideImage);
    }
    if lists::is_bad(list) {
        return Err(Refusal::NotListed);
    }
    Ok(())
}

// Old boards read bit 6 of a restart's parameter, and unit 5, otherwise.
fn by_parameter(parameter: u8) -> Result<(), Refusal>
    ensures { number_in result ≡ cond (skips_or_days (parameter ∷ [])) 21 0 }
{
    if parameter / 64 % 2 == 1 {
        return Err(Refusal::ReadOtherwise);
    }
    if parameter % 8 == 5 {
        return Err(Refusal::ReadOtherwise);
    }
    Ok(())
}

// They read unit 5 of a pause otherwise.
fn by_unit(unit: u8) -> Result<(), Refusal>
    ensures { number_in result ≡ cond (in_days (unit ∷ [])) 21 0 }
{
    if unit == 5 {
        return Err(Refusal::ReadOtherwise);
    }
    Ok(())
}

// A task that the list, of this length, does not give.
fn by_task(task: u8, count: usize) -> Result<(), Refusal>
    ensures { number_in result ≡ cond (eqb task 0 || ltb count task) 19 0 }
{
    if task == 0 {
        return Err(Refusal::NotListed);
    }
    if count < task as usize {
        return Err(Refusal::NotListed);
    }
    Ok(())
}

// What refuses a call's numbers, with a list of this length.
pub(crate) fn by_numbers(call: Call, count: usize) -> Result<(), Refusal>
    ensures { number_in result ≡ first_of (by_numbers count (form_for call) (fields_of call)) }
{
    match call {
        Call::Terminate => Ok(()),
        Call::Restart { parameter, .. } => by_parameter(parameter),
        Call::Pause { unit, .. } => by_unit(unit),
        Call::CancelPause { .. } => Ok(()),
        Call::StartIfDormant { .. } => Ok(()),
        Call::StartOrQueue { task, .. } => by_task(task.0, count),
        Call::Flag { .. } => Ok(()),
        Call::Wait { .. } => Ok(()),
        Call::Alarm { .. } => Ok(()),
        Call::Tick => Ok(()),
        Call::Granule { .. } => Ok(()),
        Call::Task { .. } => Ok(()),
        Call::End => Ok(()),
        Call::Enter { .. } => Ok(()),
        Call::Exit { .. } => Ok(()),
        Call::Send { .. } => Ok(()),
        Call::Receive { .. } => Ok(()),
    }
}
