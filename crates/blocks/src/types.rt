// The types of blocks: the length of a block by its first byte, and which kinds of calls have one.
ghost use Rattle.std.specs.Prelude.{◌≡◌, not};
ghost use Rattle.blocks.specs.Types.{form_at, form_of, is_none, size_of};

use records::Kind;

// The length of a block with this first byte; 0 where it is no block's.
// A number: `size_of` is stated so.
pub(crate) fn length_at(byte: u8) -> usize
    ensures { result ≡ size_of (form_at byte) }
{
    match byte {
        0x00 => 1,
        0x01 => 3,
        0x02 => 3,
        0x05 => 6,
        _ => 0,
    }
}

// Whether a call of this kind has a block.
pub(crate) fn has_block(kind: Kind) -> bool
    ensures { result ≡ not (is_none (form_of kind)) }
{
    match kind {
        Kind::Unknown => false,
        Kind::Terminate => true,
        Kind::Restart => true,
        Kind::Pause => true,
        Kind::CancelPause => false,
        Kind::StartIfDormant => false,
        Kind::StartOrQueue => true,
        Kind::Flag => false,
        Kind::Wait => false,
        Kind::Alarm => false,
        Kind::Tick => false,
        Kind::Granule => false,
        Kind::Task => false,
        Kind::End => false,
        Kind::Enter => false,
        Kind::Exit => false,
        Kind::Send => false,
        Kind::Receive => false,
    }
}
