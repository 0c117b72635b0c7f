// Sets of numbers below 32, a bit each: their members, one after the other.
ghost use Rattle.std.specs.Prelude.{◌≤◌};
ghost use Rattle.image.specs.Marks.{Next};

// The next member of a set from a number on; 32 where there is none.
// A number past the last: `Next` is stated so.
pub(crate) fn next_in(set: u32, from: u8) -> u8
    requires { from ≤ 32 }
    ensures { Next set from result }
{
    if 31 < from {
        return 32;
    }
    let left = set >> (from as u32);
    if left == 0 {
        return 32;
    }
    from + (u32::trailing_zeros(left) as u8)
}
