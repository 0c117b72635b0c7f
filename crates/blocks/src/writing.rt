// Writing: from a call, or a record, to the block at an address of an image.
ghost use Rattle.std.specs.Prelude.{◌≡◌};
ghost use Rattle.records.specs.Refusals.{number_in};
ghost use Rattle.blocks.specs.Writing.{Lays, WritesBlock, WritesRecord};

use crate::{lists, refusals, types};
use records::{Call, Refusal, kinds, reading};

// The bytes of a block, with zeros after them, and their number; 0 where there is no block.
#[derive(Clone, Copy)]
struct Laid([u8; 6], usize);

// The block of a call, with the work address.
fn lay(list: &[u16], call: Call, work: u16) -> Laid
    ensures { Lays list.now call work result.0 result.1 }
{
    match call {
        Call::Terminate => Laid([0x00, 0, 0, 0, 0, 0], 1),
        Call::Restart { parameter, count } => Laid([0x01, parameter, count, 0, 0, 0], 3),
        Call::Pause { unit, count } => Laid([0x02, unit, count, 0, 0, 0], 3),
        Call::CancelPause { .. } => Laid([0, 0, 0, 0, 0, 0], 0),
        Call::StartIfDormant { .. } => Laid([0, 0, 0, 0, 0, 0], 0),
        Call::StartOrQueue { option, task, .. } => {
            let address = lists::address_of(list, task.0);
            let [high, low] = address.to_be_bytes();
            let [work_high, work_low] = work.to_be_bytes();
            Laid([0x05, option, high, low, work_high, work_low], 6)
        }
        Call::Flag { .. } => Laid([0, 0, 0, 0, 0, 0], 0),
        Call::Wait { .. } => Laid([0, 0, 0, 0, 0, 0], 0),
        Call::Alarm { .. } => Laid([0, 0, 0, 0, 0, 0], 0),
        Call::Tick => Laid([0, 0, 0, 0, 0, 0], 0),
        Call::Granule { .. } => Laid([0, 0, 0, 0, 0, 0], 0),
        Call::Task { .. } => Laid([0, 0, 0, 0, 0, 0], 0),
        Call::End => Laid([0, 0, 0, 0, 0, 0], 0),
        Call::Enter { .. } => Laid([0, 0, 0, 0, 0, 0], 0),
        Call::Exit { .. } => Laid([0, 0, 0, 0, 0, 0], 0),
        Call::Send { .. } => Laid([0, 0, 0, 0, 0, 0], 0),
        Call::Receive { .. } => Laid([0, 0, 0, 0, 0, 0], 0),
    }
}

// Writes the block of a call to an address of an image, by the list of task addresses and with the work address: every
// other byte is as it was. Refused: 18 where the image is longer than 65,536 bytes or the address is not in
// it, 4 where the call is of none of the four kinds, 18 where the block would pass the image's end, 19 where the list
// is longer than 16 or has a repeat, or the task is not listed, 21 where old boards read the block otherwise. Then no
// byte changes.
pub fn write(
    image: &mut [u8],
    address: usize,
    list: &[u16],
    call: Call,
    work: u16,
) -> Result<(), Refusal>
    ensures { WritesBlock image.old address list.now call work image.new (number_in result) }
{
    let laid = lay(list, call, work);
    let n = laid.1;
    refusals::by_place(image.len(), address, n, list)?;
    refusals::by_numbers(call, list.len())?;
    image[address..address + n].copy_from_slice(&laid.0[..n]);
    Ok(())
}

// The same from a record's bytes. Refused besides: 4 where it is empty, 3 where its length is not its kind's; both
// before the second 18.
pub fn write_record(
    image: &mut [u8],
    address: usize,
    list: &[u16],
    bytes: &[u8],
    work: u16,
) -> Result<(), Refusal>
    ensures { WritesRecord image.old address list.now bytes.now work image.new (number_in result) }
{
    if refusals::is_outside(image.len(), address) {
        return Err(Refusal::OutsideImage);
    }
    if bytes.len() == 0 {
        return Err(Refusal::UnknownKind);
    }
    if !types::has_block(kinds::kind_of(bytes[0])) {
        return Err(Refusal::UnknownKind);
    }
    let call = reading::read(bytes)?;
    write(image, address, list, call, work)
}
