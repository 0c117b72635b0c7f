// Whether bytes are all zero, thirty-two at a time where there are as many. Four bytes are put together lowest first: a
// Cortex-M3 then reads them at once, and takes one instruction more for each four.
ghost use Rattle.std.specs.Prelude.{◌≡◌, not, ◌+◌, ◌-◌, ◌≤◌, eqb, ltb, length};
ghost use Rattle.image.specs.Image.{image_length};
ghost use Rattle.image.specs.Sound.{noughts};

use crate::numbers;

// The number of four bytes, the last the highest: it is zero where they are, and small where the last two are.
pub(crate) fn quad(b: &[u8], at: usize) -> u32
    requires { at + 4 ≤ length b.now }
    ensures result_value { eqb result 0 ≡ noughts b.now 4 at }
    ensures result_value_2 { ltb 65535 result ≡ not (noughts b.now 2 (at + 2)) }
{
    u32::from_le_bytes([b[at], b[at + 1], b[at + 2], b[at + 3]])
}

// A number that is zero where eight, twelve, sixteen or thirty-two bytes are. One function for any length would need a
// loop, and a clause that the length is a multiple of four.
pub(crate) fn eight(b: &[u8], at: usize) -> u32
    requires { at + 8 ≤ length b.now }
    ensures { eqb result 0 ≡ noughts b.now 8 at }
{
    quad(b, at) | quad(b, at + 4)
}

pub(crate) fn twelve(b: &[u8], at: usize) -> u32
    requires { at + 12 ≤ length b.now }
    ensures { eqb result 0 ≡ noughts b.now 12 at }
{
    eight(b, at) | quad(b, at + 8)
}

pub(crate) fn sixteen(b: &[u8], at: usize) -> u32
    requires { at + 16 ≤ length b.now }
    ensures { eqb result 0 ≡ noughts b.now 16 at }
{
    eight(b, at) | eight(b, at + 8)
}

fn thirty_two(b: &[u8], at: usize) -> u32
    requires { at + 32 ≤ length b.now }
    ensures { eqb result 0 ≡ noughts b.now 32 at }
{
    sixteen(b, at) | sixteen(b, at + 16)
}

// Whether the bytes from a place up to another are all zero.
pub(crate) fn are_zero(b: &[u8], from: usize, to: usize) -> bool
    requires { (from ≤ to) × (to ≤ length b.now) × (to ≤ image_length) }
    ensures { result ≡ noughts b.now (to - from) from }
{
    let end = to as u32;
    let mut at = from as u32;
    let mut all: u32 = 0;
    // Whiles: they step by thirty-two bytes and by four.
    while 32 <= end - at {
        all |= thirty_two(b, at as usize);
        at += 32;
    }
    while 4 <= end - at {
        all |= quad(b, at as usize);
        at += 4;
    }
    for i in at..end {
        all |= numbers::wide(b[i as usize]);
    }
    all == 0
}
