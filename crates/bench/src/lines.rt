// The four lines of a listing, each put at a place of a buffer that has room for it.
ghost use Rattle.std.specs.Prelude.{◌+◌, ◌≤◌, length};
ghost use Rattle.text.specs.Glyphs.{Adds};
ghost use Rattle.bench.specs.Lines.{header_by, line_of, stop_of, end_of};

use executive::Answer;
use records::TaskNo;
use text::glyphs;

// granule, tasks and active, each with its number.
pub(crate) fn header_line(
    out: &mut [u8],
    at: usize,
    granule: u8,
    tasks: u8,
    active: TaskNo,
) -> usize
    requires { at + 64 ≤ length out.old }
    ensures { Adds out.old at out.new result (header_by granule tasks active.0) }
{
    let at = glyphs::text(out, at, b"granule ");
    let at = glyphs::decimal(out, at, u64::from(granule));
    let at = glyphs::text(out, at, b" tasks ");
    let at = glyphs::decimal(out, at, u64::from(tasks));
    let at = glyphs::text(out, at, b" active ");
    let at = glyphs::decimal(out, at, u64::from(active.0));
    glyphs::put(out, at, b'\n')
}

// A step's number, its kind in hex, answer, ZVC, active.
pub(crate) fn step_line(out: &mut [u8], at: usize, number: u32, kind: u8, answer: Answer) -> usize
    requires { at + 64 ≤ length out.old }
    ensures { Adds out.old at out.new result (line_of number kind answer) }
{
    let at = glyphs::decimal(out, at, u64::from(number));
    let at = glyphs::put(out, at, b' ');
    let at = glyphs::hex(out, at, kind);
    let at = glyphs::put(out, at, b' ');
    let at = glyphs::decimal(out, at, u64::from(answer.number));
    let at = glyphs::put(out, at, b' ');
    let at = glyphs::bits(out, at, answer.z, answer.v, answer.c);
    let at = glyphs::put(out, at, b' ');
    let at = glyphs::decimal(out, at, u64::from(answer.active.0));
    glyphs::put(out, at, b'\n')
}

// stop and a number.
pub(crate) fn stop_line(out: &mut [u8], at: usize, n: u8) -> usize
    requires { at + 64 ≤ length out.old }
    ensures { Adds out.old at out.new result (stop_of n) }
{
    let at = glyphs::text(out, at, b"stop ");
    let at = glyphs::decimal(out, at, u64::from(n));
    glyphs::put(out, at, b'\n')
}

// end.
pub(crate) fn end_line(out: &mut [u8], at: usize) -> usize
    requires { at + 64 ≤ length out.old }
    ensures { Adds out.old at out.new result end_of }
{
    glyphs::text(out, at, b"end\n")
}
