// Reading: from the bytes of a record to the call that it holds.
ghost use Rattle.std.specs.Prelude.{◌≡◌};
ghost use Rattle.records.specs.Numbers.{cut};
ghost use Rattle.records.specs.Kinds.{body_of};
ghost use Rattle.records.specs.Calls.{got_of};
ghost use Rattle.records.specs.Reading.{ByteIs, Reads};
ghost use Rattle.records.specs.declared.Kind.TheVariants as kind;

use crate::{Call, FlagNo, Kind, Refusal, SubNo, TaskNo, Text, kinds};

// The byte at a place, and 0 past the end.
pub fn byte_at(bytes: &[u8], i: usize) -> u8
    ensures { ByteIs bytes.now i result }
{
    if i < bytes.len() {
        return bytes[i];
    }
    0
}

// The call of a record of 05, whose argument is two bytes.
fn start_of(bytes: &[u8]) -> Result<Call, Refusal>
    ensures { result ≡ got_of kind.StartOrQueue (cut (body_of kind.StartOrQueue) 1 bytes.now) }
{
    Ok(Call::StartOrQueue {
        option: byte_at(bytes, 1),
        task: TaskNo(byte_at(bytes, 2)),
        argument: u16::from_be_bytes([byte_at(bytes, 3), byte_at(bytes, 4)]),
    })
}

// The call of a record of 0A, whose mask is four bytes.
fn wait_of(bytes: &[u8]) -> Result<Call, Refusal>
    ensures { result ≡ got_of kind.Wait (cut (body_of kind.Wait) 1 bytes.now) }
{
    let b = byte_at(bytes, 2);
    let c = byte_at(bytes, 3);
    Ok(Call::Wait {
        mode: byte_at(bytes, 1),
        mask: u32::from_be_bytes([b, c, byte_at(bytes, 4), byte_at(bytes, 5)]),
    })
}

// The call of a record of 14, whose text is eight bytes.
fn send_of(bytes: &[u8]) -> Result<Call, Refusal>
    ensures { result ≡ got_of kind.Send (cut (body_of kind.Send) 1 bytes.now) }
{
    let a = byte_at(bytes, 2);
    let b = byte_at(bytes, 3);
    let c = byte_at(bytes, 4);
    let d = byte_at(bytes, 5);
    let e = byte_at(bytes, 6);
    let f = byte_at(bytes, 7);
    Ok(Call::Send {
        task: TaskNo(byte_at(bytes, 1)),
        text: Text(u64::from_be_bytes([a, b, c, d, e, f, byte_at(bytes, 8), byte_at(bytes, 9)])),
    })
}

// The call of a record that has its kind's length.
fn call_of(kind: Kind, bytes: &[u8]) -> Result<Call, Refusal>
    ensures { result ≡ got_of kind (cut (body_of kind) 1 bytes.now) }
{
    let a = byte_at(bytes, 1);
    let b = byte_at(bytes, 2);
    let task = TaskNo(b);
    let flag = FlagNo(b);
    let subprogram = SubNo(a);
    match kind {
        Kind::Unknown => Err(Refusal::UnknownKind),
        Kind::Terminate => Ok(Call::Terminate),
        Kind::Restart => Ok(Call::Restart {
            parameter: a,
            count: b,
        }),
        Kind::Pause => Ok(Call::Pause { unit: a, count: b }),
        Kind::CancelPause => Ok(Call::CancelPause { task: TaskNo(a) }),
        Kind::StartIfDormant => Ok(Call::StartIfDormant { option: a, task }),
        Kind::StartOrQueue => start_of(bytes),
        Kind::Flag => Ok(Call::Flag { operation: a, flag }),
        Kind::Wait => wait_of(bytes),
        Kind::Alarm => Ok(Call::Alarm {
            unit: a,
            count: b,
            flag: FlagNo(byte_at(bytes, 3)),
        }),
        Kind::Tick => Ok(Call::Tick),
        Kind::Granule => Ok(Call::Granule { granule: a }),
        Kind::Task => Ok(Call::Task { own: a, mark: b }),
        Kind::End => Ok(Call::End),
        Kind::Enter => Ok(Call::Enter { subprogram }),
        Kind::Exit => Ok(Call::Exit { subprogram }),
        Kind::Send => send_of(bytes),
        Kind::Receive => Ok(Call::Receive { task: TaskNo(a) }),
    }
}

// The call that a record holds. Refused: 3 where it is empty, 4 where its first byte is no carried kind, 3 where
// its length is not its kind's.
pub fn read(bytes: &[u8]) -> Result<Call, Refusal>
    ensures { Reads bytes.now result }
{
    let n = bytes.len();
    if n == 0 {
        return Err(Refusal::WrongLength);
    }
    let kind = kinds::kind_of(bytes[0]);
    let want = kinds::length_of(kind);
    if want == 0 {
        return Err(Refusal::UnknownKind);
    }
    if n != want {
        return Err(Refusal::WrongLength);
    }
    call_of(kind, bytes)
}
