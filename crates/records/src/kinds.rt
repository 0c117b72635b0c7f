// The kind that a first byte names, the length of a record of a kind, and whether it is a call.
ghost use Rattle.records.specs.Kinds.{KindIs, LengthIs, CallIs};

use crate::Kind;

// The kind of a record with this first byte.
pub fn kind_of(byte: u8) -> Kind
    ensures { KindIs byte result }
{
    match byte {
        0x00 => Kind::Terminate,
        0x01 => Kind::Restart,
        0x02 => Kind::Pause,
        0x03 => Kind::CancelPause,
        0x04 => Kind::StartIfDormant,
        0x05 => Kind::StartOrQueue,
        0x09 => Kind::Flag,
        0x0A => Kind::Wait,
        0x0B => Kind::Alarm,
        0x80 => Kind::Tick,
        0x40 => Kind::Granule,
        0x41 => Kind::Task,
        0x42 => Kind::End,
        0x06 => Kind::Enter,
        0x07 => Kind::Exit,
        0x14 => Kind::Send,
        0x15 => Kind::Receive,
        _ => Kind::Unknown,
    }
}

// The length of a whole record of this kind, first byte and body; 0 for Unknown.
// A number: it is public, and `LengthIs` is stated so.
pub fn length_of(kind: Kind) -> usize
    ensures { LengthIs kind result }
{
    match kind {
        Kind::Unknown => 0,
        Kind::Terminate => 1,
        Kind::Restart => 3,
        Kind::Pause => 3,
        Kind::CancelPause => 2,
        Kind::StartIfDormant => 3,
        Kind::StartOrQueue => 5,
        Kind::Flag => 3,
        Kind::Wait => 6,
        Kind::Alarm => 4,
        Kind::Tick => 1,
        Kind::Granule => 2,
        Kind::Task => 3,
        Kind::End => 1,
        Kind::Enter => 2,
        Kind::Exit => 2,
        Kind::Send => 10,
        Kind::Receive => 2,
    }
}

// Whether a record of this kind is a call, which a step takes; one of a configuration is none, nor is Unknown.
pub fn is_call(kind: Kind) -> bool
    ensures { CallIs kind result }
{
    match kind {
        Kind::Unknown => false,
        Kind::Terminate => true,
        Kind::Restart => true,
        Kind::Pause => true,
        Kind::CancelPause => true,
        Kind::StartIfDormant => true,
        Kind::StartOrQueue => true,
        Kind::Flag => true,
        Kind::Wait => true,
        Kind::Alarm => true,
        Kind::Tick => true,
        Kind::Granule => false,
        Kind::Task => false,
        Kind::End => false,
        Kind::Enter => true,
        Kind::Exit => true,
        Kind::Send => true,
        Kind::Receive => true,
    }
}
