// The blocks of old boards: the entry point for C, on byte slices and numbers only. It is the library's own function of
// that name.
#![tactic(auto)]

ghost use Rattle.blocks.specs.Asking.{Answers};

// Answers a question in bytes: see `blocks::quermanic_block`.
#[unsafe(no_mangle)]
pub extern "C" fn quermanic_block(head: &[u8], image: &mut [u8], room: &mut [u8]) -> u8
    ensures { Answers head.now image.old room.old image.new room.new result }
{
    blocks::quermanic_block(head, image, room)
}
