// The bench program: reads an input from standard input, at most one byte more than an input may have, and writes
// its listing to standard output. A read or a write that fails ends it with that error.
#![tactic(auto)]

use bench::listing;
use std::io;
use std::io::Write;

// The bytes of a listing that are written at a time.
const PIECE: usize = 65536;

// Writes the listing of an input, a buffer at a time.
fn tell(input: &[u8], writer: &mut impl Write) -> io::Result<()> {
    let mut out = [0u8; PIECE];
    let mut run = listing::start(input);
    // A while: a turn tells as much as goes into the buffer.
    while run.next.is_some() {
        let filled = listing::fill(input, run, &mut out);
        writer.write_all(&out[..filled.used])?;
        run = filled.run;
    }
    Ok(())
}

fn main(rt: HostRuntime) -> io::Result<()> {
    let mut bytes = [0u8; listing::MOST_BYTES + 1];
    let n = input::read_full(&mut rt.stdin(), &mut bytes)?;
    tell(&bytes[..n], &mut rt.stdout())
}
