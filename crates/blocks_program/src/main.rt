// The blocks program: reads a question from standard input, its head and then the image, and writes the answer to
// standard output: its number as one byte and, with 0, the record in hex, one line, or the image. A read or a write
// that fails ends it with that error.
#![tactic(auto)]

ghost use Rattle.std.specs.Io.{ReadsAtMost};

use blocks::{asking, hex};
use records::kinds;
use std::io;
use std::io::{Read, Write};

// The longest head: 9 bytes, 255 addresses of 2, a record of 255.
const HEAD: usize = 774;

// One byte more than an image may have.
const IMAGE: usize = 65537;

// Reads a head, a byte at a time, since only its own bytes say where it ends: how many bytes were read.
fn read_head<R: Read>(reader: &mut R, head: &mut [u8]) -> io::Result<usize>
    ensures { ReadsAtMost result head.new }
{
    let mut one = [0u8; 1];
    for n in 0..head.len() {
        if asking::end_of(head) <= n {
            return Ok(n);
        }
        if input::read_full(reader, &mut one)? == 0 {
            return Ok(n);
        }
        head[n] = one[0];
    }
    Ok(head.len())
}

// Writes a record in hex, one line.
fn tell(record: [u8; 6], writer: &mut impl Write) -> io::Result<()> {
    let length = kinds::length_of(kinds::kind_of(record[0]));
    for (i, byte) in record.iter().take(length).enumerate() {
        let next = if i + 1 == length { b'\n' } else { b' ' };
        writer.write_all(&hex::pair(*byte, next))?;
    }
    Ok(())
}

// Answers the question of a head and an image.
fn answer(head: &[u8], image: &mut [u8], writer: &mut impl Write) -> io::Result<()> {
    let mut record = [0u8; 6];
    let number = blocks::quermanic_block(head, image, &mut record);
    writer.write_all(&[number])?;
    if number != 0 {
        return Ok(());
    }
    if head.len() == 0 {
        return Ok(());
    }
    if head[0] == 1 {
        return writer.write_all(image);
    }
    tell(record, writer)
}

fn main(rt: HostRuntime) -> io::Result<()> {
    let mut head = [0u8; HEAD];
    let mut image = [0u8; IMAGE];
    let mut stdin = rt.stdin();
    let h = read_head(&mut stdin, &mut head)?;
    let n = input::read_full(&mut stdin, &mut image)?;
    let whole: &mut [u8] = &mut image;
    answer(&head[..h], &mut whole[..n], &mut rt.stdout())
}
