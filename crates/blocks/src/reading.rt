// Reading: from the block at an address of an image to the call that it holds.
ghost use Rattle.std.specs.Prelude.{◌≡◌, false, ◌≤◌, length, Ok};
ghost use Rattle.blocks.specs.Lists.{task_of};
ghost use Rattle.blocks.specs.Types.{is_none};
ghost use Rattle.blocks.specs.Reading.{form_in, called_in, ReadsBlock};

use crate::{lists, refusals, types};
use records::reading::byte_at;
use records::{Call, Refusal, TaskNo};

// The task of an address, which is over the list's length where it is not listed.
fn task_of(list: &[u16], address: u16) -> u8
    requires { length list.now ≤ 16 }
    ensures { result ≡ task_of list.now address }
{
    (lists::place_of(list, address) as u8) + 1
}

// The call of the block at an address, which is one of the four types.
fn call_at(image: &[u8], address: usize, list: &[u16], argument: u16) -> Call
    requires { (address ≤ 65536) × (length list.now ≤ 16) × (is_none (form_in image.now address) ≡ false) }
    ensures { called_in image.now address list.now argument ≡ Ok result }
{
    let a = byte_at(image, address + 1);
    let b = byte_at(image, address + 2);
    match byte_at(image, address) {
        0x00 => Call::Terminate,
        0x01 => Call::Restart {
            parameter: a,
            count: b,
        },
        0x02 => Call::Pause { unit: a, count: b },
        0x05 => Call::StartOrQueue {
            option: a,
            task: TaskNo(task_of(list, u16::from_be_bytes([b, byte_at(image, address + 3)]))),
            argument,
        },
        _ => Call::End,
    }
}

// The call that the block at an address of an image holds, by the list of task addresses and with the argument.
// Refused: 18 where the image is longer than 65,536 bytes or the address is not in it, 4 where the type is none of
// the four, 18 where the block would pass the image's end, 19 where the list is longer than 16 or has a repeat, or the
// task's address is not listed, 21 where old boards read the block otherwise.
pub fn read(image: &[u8], address: usize, list: &[u16], argument: u16) -> Result<Call, Refusal>
    ensures { ReadsBlock image.now address list.now argument result }
{
    let size = types::length_at(byte_at(image, address));
    refusals::by_place(image.len(), address, size, list)?;
    let call = call_at(image, address, list, argument);
    refusals::by_numbers(call, list.len())?;
    Ok(call)
}
