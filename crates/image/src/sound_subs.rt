// The check of the subprograms on the lent bytes: their numbers, their holders, their lines.
ghost use Rattle.std.specs.Prelude.{◌≡◌, not, ℕ, ◌+◌, ◌*◌, ◌≤◌, ◌<◌, eqb, length, get_or};
ghost use Rattle.executive.specs.Lists.{◌and◌};
ghost use Rattle.executive.specs.States.{await_sub, is_of, waits_for};
ghost use Rattle.executive.specs.Flags.{is_set};
ghost use Rattle.executive.specs.Check.{line_right, holder_right, sub_in_range, sub_right, held_right};
ghost use Rattle.image.specs.Image.{image_length, line_from, sub_from, load_of};
ghost use Rattle.image.specs.Sound.{tasks_in, noughts, KindsKnown};
ghost use Rattle.image.specs.Marks.{passed, Marked, Waiting};

use crate::{AWAITED, IMAGE, SUBS, changes, members, sound_pool, sound_queue, zeros};

// Those who wait for each subprogram, of those who wait for any, bit i for the task whose entry is the i-th: sixteen
// bits for sixteen tasks.
fn waiting_sets(b: &[u8; IMAGE], count: u8, waiters: u16) -> [u16; 8]
    requires { (count ≤ 16) × KindsKnown b.now count
        × Marked count waiters (passed (is_of await_sub) (tasks_in b.now)) }
    ensures { Waiting count result (tasks_in b.now) }
{
    let mut sets = [0u16; 8];
    // A while: it steps by the next set bit, not by one.
    let mut k = members::next_in(waiters as u32, 0);
    while k < count {
        let m = b[AWAITED + k as usize];
        if m < 8 {
            sets[m as usize] |= 1u16 << (k as u32);
        }
        k = members::next_in(waiters as u32, k + 1);
    }
    sets
}

// Those that are not free: held, with a line, or waited for.
fn used_subs(b: &[u8; IMAGE], sets: [u16; 8]) -> u32
    ensures { (m : ℕ) → m < 8
        → is_set result m ≡ not (noughts b.now 18 (914 + m * 18) and eqb (get_or sets m 0) 0) }
{
    let mut used: u32 = 0;
    for m in 0..8u8 {
        let i = m as usize;
        let at = SUBS + i * 18;
        if zeros::sixteen(b, at) | zeros::quad(b, at + 14) | (sets[i] as u32) != 0 {
            used |= changes::bit_of(i);
        }
    }
    used
}

// A line holds exactly those in a set, once each, in descending priority; its free places are zero. So it holds
// exactly those who wait for subprogram m where the set is theirs.
fn line_right(b: &[u8; IMAGE], at: usize, waiting: u8, set: u16, count: u8) -> bool
    requires { (at + 16 ≤ image_length) × (waiting ≤ 16) × (count ≤ 16) }
    ensures { (m : ℕ) → Marked count set (passed (waits_for m) (tasks_in b.now))
        → result ≡ line_right (waits_for m) (tasks_in b.now) count waiting (line_from b.now at) }
{
    let Some(line) = sound_queue::walk(b, at, waiting, count) else {
        return false;
    };
    if line.seen != set as u32 {
        return false;
    }
    sound_queue::blank_from(b, at, waiting)
}

// A holder is busy; a free subprogram has no waiters.
fn holder_right(b: &[u8; IMAGE], at: usize) -> bool
    requires { at + 18 ≤ image_length }
    ensures { result ≡ holder_right (tasks_in b.now) (sub_from b.now at) }
{
    if b[at] == 0 {
        return b[at + 1] == 0;
    }
    !sound_pool::is_idle(b, b[at])
}

// A subprogram at its place, and the set of those who wait for it: its numbers are in range, and it keeps the rule.
fn sub_right(b: &[u8; IMAGE], at: usize, set: u16, count: u8) -> bool
    requires { (at + 18 ≤ image_length) × (count ≤ 16) }
    ensures { (m : ℕ) → Marked count set (passed (waits_for m) (tasks_in b.now))
        → result ≡ (sub_in_range count (sub_from b.now at) and sub_right (tasks_in b.now) count m
        (sub_from b.now at)) }
{
    if count < b[at] {
        return false;
    }
    if 16 < b[at + 1] {
        return false;
    }
    if !holder_right(b, at) {
        return false;
    }
    line_right(b, at + 2, b[at + 1], set, count)
}

// The subprograms keep their rules. Only those that are not free are looked at one by one.
pub(crate) fn subs_right(b: &[u8; IMAGE], count: u8, waiters: u16) -> bool
    requires { (count ≤ 16) × KindsKnown b.now count
        × Marked count waiters (passed (is_of await_sub) (tasks_in b.now)) }
    ensures { result ≡ held_right (load_of b.now).tasks count (load_of b.now).rest.subs }
{
    let sets = waiting_sets(b, count, waiters);
    let used = used_subs(b, sets);
    // A while: it steps by the next set bit, not by one.
    let mut m = members::next_in(used, 0);
    while m < 8 {
        let i = m as usize;
        if !sub_right(b, SUBS + i * 18, sets[i], count) {
            return false;
        }
        m = members::next_in(used, m + 1);
    }
    true
}
