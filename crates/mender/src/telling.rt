// The list as text: it is put together in a buffer of its own, and handed out whole or not at all.
ghost use Rattle.std.specs.Prelude.{◌≡◌, ◌+◌, ◌≤◌, length};
ghost use Rattle.text.specs.Glyphs.{Adds};
ghost use Rattle.mender.specs.Telling.{rule_words, note_line, note_lines, noted_in, refused_line, text_of, Tells};

use text::glyphs;

// The words of a rule, of up to 80 bytes. The rule is the byte that a list has: any byte may come from the C interface.
fn rule_words(out: &mut [u8], at: usize, rule: u8) -> usize
    requires { at + 80 ≤ length out.old }
    ensures { Adds out.old at out.new result (rule_words rule) × (result ≤ at + 80) }
{
    match rule {
        0 => glyphs::text(out, at, b"its state has no use for some of its bytes"),
        1 => glyphs::text(out, at, b"a number is out of range"),
        3 => glyphs::text(out, at, b"a stored time is out of range"),
        4 => glyphs::text(out, at, b"its last scheduled start is after the clock"),
        5 => glyphs::text(out, at, b"its mask is zero, or its condition holds already"),
        7 => glyphs::text(
            out,
            at,
            b"its link names no task that waits for its end, or one that is named already",
        ),
        8 => glyphs::text(
            out,
            at,
            b"it is dormant, and held more than its own priority",
        ),
        11 => glyphs::text(out, at, b"a message that it waits for was there already"),
        _ => glyphs::text(out, at, b"a waiter whose link was lost"),
    }
}

// The line of an entry.
fn note_line(out: &mut [u8], at: usize, task: u8, rule: u8) -> usize
    requires { at + 92 ≤ length out.old }
    ensures { Adds out.old at out.new result (note_line task rule) × (result ≤ at + 92) }
{
    let a = glyphs::text(out, at, b"task ");
    let b = glyphs::decimal(out, a, task as u64);
    let c = glyphs::text(out, b, b": ");
    let d = rule_words(out, c, rule);
    glyphs::put(out, d, 10)
}

// The lines of the first entries of a list.
fn note_lines(out: &mut [u8], at: usize, list: [u8; 33], count: usize) -> usize
    requires { (at + 1472 ≤ length out.old) × (count ≤ 16) }
    ensures { Adds out.old at out.new result (note_lines list count) × (result ≤ at + 1472) }
{
    let mut place = at;
    // By index: the definition `note_lines` reads the list's bytes by place.
    for i in 0..count {
        let task = list[i * 2 + 1];
        let rule = list[i * 2 + 2];
        place = note_line(out, place, task, rule);
    }
    place
}

// How many entries a list has; there are no more than sixteen.
fn noted_in(list: [u8; 33]) -> usize
    ensures { (result ≡ noted_in list) × (result ≤ 16) }
{
    (list[0] as usize).min(16)
}

// A refusal's line.
fn refused_line(out: &mut [u8], at: usize, number: u8) -> usize
    requires { at + 92 ≤ length out.old }
    ensures { Adds out.old at out.new result (refused_line number) × (result ≤ at + 92) }
{
    let a = glyphs::text(out, at, b"refused ");
    let b = glyphs::decimal(out, a, number as u64);
    glyphs::put(out, b, 10)
}

// The whole text, at the start of a buffer that has room for any.
fn told(out: &mut [u8], number: u8, same: bool, list: [u8; 33]) -> usize
    requires { 2048 ≤ length out.old }
    ensures { Adds out.old 0 out.new result (text_of number same list) × (result ≤ 2048) }
{
    if number != 0 {
        return refused_line(out, 0, number);
    }
    if same {
        return glyphs::text(out, 0, b"nothing to mend\n");
    }
    let count = noted_in(list);
    if count == 0 {
        return glyphs::text(out, 0, b"no task's entry changed\n");
    }
    note_lines(out, 0, list, count)
}

// What a mending is told by, at the start of a buffer: its number, whether it left every byte as it was, and its list
// in bytes, how many and then of each its task and its rule. The text's length, or 0 and nothing written where it does
// not fit.
// A length, 0 where it does not fit: it is public, and its contract says so.
pub fn tell(number: u8, same: bool, list: [u8; 33], out: &mut [u8]) -> usize
    ensures { Tells number same list out.old out.new result }
{
    let mut buffer = [0u8; 2048];
    let n = told(&mut buffer, number, same, list);
    glyphs::text(out, 0, &buffer[..n])
}
