// The two round trips: writing a call and reading it, reading a record and writing it.
ghost use Rattle.records.specs.Trips.{ComesBack, WritesAgain};

use crate::{Call, Refusal, reading, writing};

// Writes a call and reads the record: the same call.
pub fn write_then_read(call: Call) -> Result<Call, Refusal>
    ensures { ComesBack call result }
{
    let mut record = [0u8; 10];
    let n = writing::write(call, &mut record)?;
    reading::read(&record[..n])
}

// Reads a record and writes its call: the same bytes stand at out's start. Refused, and no byte changed, where the
// one or the other is.
pub fn read_then_write(bytes: &[u8], out: &mut [u8]) -> Result<usize, Refusal>
    ensures { WritesAgain bytes.now out.old out.new result }
{
    let call = reading::read(bytes)?;
    writing::write(call, out)
}
