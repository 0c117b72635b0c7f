// Bytes moved within a lent buffer. Towards the front they go four at a time where there are as many: a Cortex-M3 then
// moves them at once.
// The slice's `copy_within` is not for the board's library: it hands on what is no number in a register, which the
// module that is made for 32 bits may not have (tools/targets/clean.awk), and it moves byte by byte.
ghost use Rattle.std.specs.Prelude.{◌≡◌, ◌+◌, ◌-◌, ◌*◌, ◌≤◌, ◌<◌, length, take, drop};
ghost use Rattle.image.specs.Blocks.{written};
ghost use Rattle.image.specs.Image.{image_length};

use crate::{IMAGE, MESSAGES};

// Four bytes are written where others stand. All are read first, as the two places may overlap.
fn copy_four(b: &mut [u8], to: usize, from: usize)
    requires { (from + 4 ≤ length b.old) × (to + 4 ≤ length b.old) }
    ensures { b.new ≡ written b.old to (take 4 (drop from b.old)) }
{
    let first = b[from];
    let second = b[from + 1];
    let third = b[from + 2];
    let fourth = b[from + 3];
    b[to] = first;
    b[to + 1] = second;
    b[to + 2] = third;
    b[to + 3] = fourth;
}

// So many bytes from a place on move towards the front, four at a time.
fn few_up(b: &mut [u8], to: usize, from: usize, n: usize)
    requires { (to ≤ from) × (from + n ≤ length b.old) }
    ensures { b.new ≡ written b.old to (take n (drop from b.old)) }
{
    let mut i: usize = 0;
    // A while: it steps by four.
    while 4 <= n - i {
        copy_four(b, to + i, from + i);
        i += 4;
    }
    for j in i..n {
        b[to + j] = b[from + j];
    }
}

// Sixteen of them.
fn sixteen_up(b: &mut [u8], to: usize, from: usize)
    requires { (to ≤ from) × (from + 16 ≤ length b.old) }
    ensures { b.new ≡ written b.old to (take 16 (drop from b.old)) }
{
    copy_four(b, to, from);
    copy_four(b, to + 4, from + 4);
    copy_four(b, to + 8, from + 8);
    copy_four(b, to + 12, from + 12);
}

// The same, sixteen in a turn: requests and messages that close up are many.
pub(crate) fn move_up(b: &mut [u8], to: usize, from: usize, n: usize)
    requires { (to ≤ from) × (from + n ≤ length b.old) }
    ensures { b.new ≡ written b.old to (take n (drop from b.old)) }
{
    let mut i: usize = 0;
    // A while: it steps by sixteen.
    while 16 <= n - i {
        sixteen_up(b, to + i, from + i);
        i += 16;
    }
    few_up(b, to + i, from + i, n - i);
}

// So many bytes from a place on move towards the end, one by one: by fours the compiler would multiply, to know how
// many turns the messages behind a place take.
pub(crate) fn move_down(b: &mut [u8], to: usize, from: usize, n: usize)
    requires { (from ≤ to) × (to + n ≤ length b.old) }
    ensures { b.new ≡ written b.old to (take n (drop from b.old)) }
{
    for i in (0..n).rev() {
        b[to + i] = b[from + i];
    }
}

// The eleven bytes of a message move towards the end by as many. All are read first, so that a Cortex-M3 moves them by
// fours and not one by one.
fn letter_down(b: &mut [u8], at: usize)
    requires { at + 22 ≤ length b.old }
    ensures { b.new ≡ written b.old (at + 11) (take 11 (drop at b.old)) }
{
    let to = b[at];
    let sender = b[at + 1];
    let priority = b[at + 2];
    let first = b[at + 3];
    let second = b[at + 4];
    let third = b[at + 5];
    let fourth = b[at + 6];
    let fifth = b[at + 7];
    let sixth = b[at + 8];
    let seventh = b[at + 9];
    let eighth = b[at + 10];
    b[at + 11] = to;
    b[at + 12] = sender;
    b[at + 13] = priority;
    b[at + 14] = first;
    b[at + 15] = second;
    b[at + 16] = third;
    b[at + 17] = fourth;
    b[at + 18] = fifth;
    b[at + 19] = sixth;
    b[at + 20] = seventh;
    b[at + 21] = eighth;
}

// The messages from one place up to another move down by one place.
pub(crate) fn letters_down(b: &mut [u8; IMAGE], at: u8, n: u8)
    requires { (at ≤ n) × (n < 32) }
    ensures { b.new
        ≡ written b.old (1058 + at * 11 + 11) (take ((n - at) * 11)
        (drop (1058 + at * 11) b.old)) }
{
    for i in (at..n).rev() {
        letter_down(b, MESSAGES + (i as usize) * 11);
    }
}
