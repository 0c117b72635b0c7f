// The blocks of old boards: the guide's data blocks in a memory image, read as calls, and written from them.
#![tactic(auto)]

ghost use Rattle.records.specs.Refusals.{number_in};
ghost use Rattle.blocks.specs.Asking.{Answers};

use records::Refusal;
use records::reading::byte_at;

pub mod asking;
pub mod hex;
mod lists;
mod promises;
pub mod reading;
mod refusals;
mod types;
pub mod writing;

// Reads the block that a head asks for into the room, or writes the one that it gives into the image.
fn answer(head: &[u8], image: &mut [u8], room: &mut [u8]) -> Result<(), Refusal>
    ensures { Answers head.now image.old room.old image.new room.new (number_in result) }
{
    if asking::is_no_head(head) {
        return Err(Refusal::WrongLength);
    }
    let address = asking::address_in(head);
    let beside = asking::beside_in(head);
    let list = asking::list_in(head);
    let count = asking::count_in(head);
    if byte_at(head, 0) == 1 {
        let from = asking::record_at(head);
        let to = asking::end_of(head);
        return writing::write_record(image, address, &list[..count], &head[from..to], beside);
    }
    let call = reading::read(image, address, &list[..count], beside)?;
    records::writing::write(call, room)?;
    Ok(())
}

// Answers a question in bytes. The head is: 0 read or 1 write, the address (4 bytes), the argument or the work address
// (2), the length of the list (1) and its addresses (2 each), the length of the record (1) and the record; any other
// is 3. A read gives the record at the start of its room, or 20 where that is too short; a write rewrites the image,
// and only with 0.
// Its number is the C interface's.
pub fn quermanic_block(head: &[u8], image: &mut [u8], room: &mut [u8]) -> u8
    ensures { Answers head.now image.old room.old image.new room.new result }
{
    match answer(head, image, room) {
        Ok(()) => 0,
        Err(why) => why.into(),
    }
}
