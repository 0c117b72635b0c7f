// The steps of an input: how long the one is that some bytes begin with, and what is told where there is no whole one.
ghost use Rattle.std.specs.Prelude.{◌≡◌, ◌+◌, ◌≤◌, ◌<◌, length, MatchOption};
ghost use Rattle.text.specs.Glyphs.{Adds};
ghost use Rattle.bench.specs.Listing.{step_length, whole_of, last_of};

use crate::lines;
use records::{kinds, reading};

// The length that the first byte promises; 0 for what is no call's kind.
// A number: the definition `step_length` is stated so.
fn step_length(left: &[u8]) -> usize
    ensures { result ≡ step_length left.now }
{
    let kind = kinds::kind_of(reading::byte_at(left, 0));
    if kinds::is_call(kind) {
        kinds::length_of(kind)
    } else {
        0
    }
}

// The length of the whole step that some bytes begin with, if they do.
pub(crate) fn whole_of(left: &[u8]) -> Option<usize>
    ensures { MatchOption result (whole_of left.now ≡ 0) (λ n. (0 < n) × (n ≡ whole_of left.now)) }
{
    match step_length(left) {
        0 => None,
        n if left.len() < n => None,
        n => Some(n),
    }
}

// The line told where no whole step is left.
pub(crate) fn last_line(left: &[u8], out: &mut [u8], used: usize) -> usize
    requires { used + 64 ≤ length out.old }
    ensures { Adds out.old used out.new result (last_of left.now) }
{
    if left.is_empty() {
        return lines::end_line(out, used);
    }
    if step_length(left) == 0 {
        return lines::stop_line(out, used, 4);
    }
    lines::stop_line(out, used, 3)
}
