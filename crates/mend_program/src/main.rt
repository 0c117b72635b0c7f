// The mend program: reads an image from standard input, writes the mended image to standard output, and to standard
// error which entries were changed, or why nothing was. A read or a write that fails ends it with that error.
#![tactic(auto)]

use image::IMAGE;
use mender::telling;
use std::io;
use std::io::Write;

// The bytes of a list.
const LIST: usize = 33;

// Room for any text.
const ROOM: usize = 2048;

// Writes what a mending is told by.
fn tell(number: u8, same: bool, list: [u8; LIST], writer: &mut impl Write) -> io::Result<()> {
    let mut out = [0u8; ROOM];
    let n = telling::tell(number, same, list, &mut out);
    writer.write_all(&out[..n])
}

// Mends an image. It stays as it is exactly where it is that of a well-formed table.
fn answer(rt: &HostRuntime, given: [u8; IMAGE]) -> io::Result<()> {
    let mut image = given;
    let mut list = [0u8; LIST];
    let number = image::mend(&mut image, &mut list);
    if number == 0 {
        rt.stdout().write_all(&image)?;
    }
    let same = image::check(&given) == 0;
    tell(number, same, list, &mut rt.stderr())
}

// Bytes of another length are told as number 1.
fn main(rt: HostRuntime) -> io::Result<()> {
    let mut given = [0u8; IMAGE];
    let mut stdin = rt.stdin();
    let n = input::read_full(&mut stdin, &mut given)?;
    let mut more = [0u8; 1];
    let m = input::read_full(&mut stdin, &mut more)?;
    if n != IMAGE || m != 0 {
        return tell(1, false, [0u8; LIST], &mut rt.stderr());
    }
    answer(&rt, given)
}
