// The check in place of a line, the ready queue's or a subprogram's: exactly the tasks in its state, once each, in
// descending priority. Once each by sets of bits, a bit a task.
ghost use Rattle.std.specs.Prelude.{◌≡◌, true, false, ◌+◌, ◌≤◌, length, drop, take, MatchOption};
ghost use Rattle.executive.specs.Lists.{all_of};
ghost use Rattle.executive.specs.States.{is_ready};
ghost use Rattle.executive.specs.Check.{is_nobody, queue_right};
ghost use Rattle.image.specs.Image.{image_length, line_from, load_of};
ghost use Rattle.image.specs.Marks.{passed, Marked, Walks};

use crate::{IMAGE, LEVELS, QUEUE, changes, moves, numbers, zeros};
use executive::places;
use records::TaskNo;

// What a walk over a line finds: who stand there, bit i for the task whose entry is the i-th; the word of their levels.
#[derive(Clone, Copy)]
pub(crate) struct Walked {
    pub(crate) seen: u32,
    pub(crate) word: u16,
}

// Walks over the first places of a line, where those who stand there are tasks, in descending priority, and nobody
// twice.
pub(crate) fn walk(b: &[u8; IMAGE], at: usize, taken: u8, count: u8) -> Option<Walked>
    requires { (at + 16 ≤ image_length) × (taken ≤ 16) × (count ≤ 16) }
    ensures { MatchOption result
        (Walks (load_of b.now).tasks count (take taken (line_from b.now at)) false 0 0)
        (λ w. Walks (load_of b.now).tasks count (take taken (line_from b.now at)) true w.seen w.word) }
{
    let mut p: u8 = 15;
    let mut seen: u32 = 0;
    let mut word: u16 = 0;
    for i in 0..taken {
        let k = places::entry_place(TaskNo(b[at + i as usize]));
        if count as usize <= k {
            return None;
        }
        let level = b[k * 26 + 14];
        if p < level {
            return None;
        }
        let bit = changes::bit_of(k);
        if seen & bit != 0 {
            return None;
        }
        seen |= bit;
        p = level;
        word |= moves::level_bit(level);
    }
    Some(Walked { seen, word })
}

// The free places of a line are zero.
pub(crate) fn blank_from(b: &[u8; IMAGE], at: usize, taken: u8) -> bool
    requires { (at + 16 ≤ image_length) × (taken ≤ 16) }
    ensures { result ≡ all_of is_nobody (drop taken (line_from b.now at)) }
{
    zeros::are_zero(b, at + taken as usize, at + 16)
}

// The ready queue holds exactly the ready tasks, whose set is given, once each, in descending priority; its free places
// are zero; the word of the ready levels is theirs.
pub(crate) fn queue_right(b: &[u8; IMAGE], ready: u8, count: u8, set: u16) -> bool
    requires { (ready ≡ (load_of b.now).ready) × (count ≡ (load_of b.now).rest.count)
        × Marked count set (passed is_ready (load_of b.now).tasks) }
    ensures { result ≡ queue_right (load_of b.now) }
{
    if 16 < count {
        return false;
    }
    if 16 < ready {
        return false;
    }
    let Some(line) = walk(b, QUEUE, ready, count) else {
        return false;
    };
    if line.word != numbers::pair_in(b, LEVELS) {
        return false;
    }
    if line.seen != set as u32 {
        return false;
    }
    blank_from(b, QUEUE, ready)
}
