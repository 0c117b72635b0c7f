// Whether some bytes are an image: they have its length, and each task's entry holds the numbers of a state. Any bytes
// may stand in its other places.
ghost use Rattle.std.specs.Prelude.{◌≡◌, ◌<◌, false, cond, eqb, length};
ghost use Rattle.image.specs.Image.{image_length, is_image};
ghost use Rattle.image.specs.Coding.{is_code};
ghost use Rattle.image.specs.Sound.{code_at};

use crate::{AWAITED, IMAGE, numbers};
use executive::Millis;

// A time, a mask and a number are zero.
fn are_none(time: u64, mask: u32, number: u8) -> bool
    ensures { result ≡ cond (eqb 0 time) (cond (eqb 0 mask) (eqb 0 number) false) false }
{
    if 0 != time {
        return false;
    }
    if 0 != mask {
        return false;
    }
    0 == number
}

// Whether a kind, a time, a mask and a number are those of the state that they make. A byte that is no kind is none,
// and a time, a mask or a number is none where the state holds no such.
// The kinds are bytes of an image (docs/TABLE.md), and so numbers.
pub(crate) fn is_code(kind: u8, time: Millis, mask: u32, number: u8) -> bool
    ensures { result ≡ is_code kind time mask number }
{
    match kind {
        0 => are_none(time.0, mask, number),
        1 => are_none(time.0, mask, number),
        2 => are_none(0, mask, number),
        3 => are_none(0, mask, number),
        4 => are_none(time.0, 0, number),
        5 => are_none(time.0, 0, number),
        6 => are_none(time.0, mask, number),
        7 => are_none(time.0, mask, number),
        8 => are_none(time.0, mask, 0),
        9 => are_none(time.0, mask, 0),
        _ => false,
    }
}

// Whether the i-th entry holds the numbers of a state.
fn holds_code(bytes: &[u8; IMAGE], i: usize) -> bool
    requires { i < 16 }
    ensures { result ≡ code_at bytes.now i }
{
    let at = i * 26;
    let time = numbers::long_in(bytes, at + 2);
    let mask = numbers::word_in(bytes, at + 10);
    is_code(bytes[at + 1], Millis(time), mask, bytes[AWAITED + i])
}

// Whether the bytes are an image.
pub(crate) fn is_image(bytes: &[u8]) -> bool
    ensures { result ≡ is_image bytes.now }
{
    let Some(b) = bytes.as_array::<IMAGE>() else {
        return false;
    };
    (0..16usize).all(|i| holds_code(b, i))
}
