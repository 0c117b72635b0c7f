// The word of the ready levels, bit p for a ready task of priority p, and the status lamp, which shows the highest.
ghost use Rattle.std.specs.Prelude.{◌≡◌, cond, ◌≤◌, ◌-◌, eqb, ltb, take};
ghost use Rattle.executive.specs.Table.{level_bit, items, levels_of};
ghost use Rattle.executive.specs.Lamp.{lamp_of};

use crate::{Table, Task, places};
use records::TaskNo;

// The bit of a priority; one over 15 has none.
pub(crate) fn level_bit(p: u8) -> u16
    ensures { result ≡ level_bit p }
{
    if 15 < p {
        return 0;
    }
    1u16 << (p as u32)
}

// The word once the first of those ready, of priority p, has left: without its bit, unless the next in line has the
// same priority.
pub(crate) fn cleared(levels: u16, p: u8, next: u8) -> u16
    requires { level_bit p ≤ levels }
    ensures { result ≡ cond (eqb next p) levels (levels - level_bit p) }
{
    if next == p {
        return levels;
    }
    levels - level_bit(p)
}

// The word of a line. A number that names no task counts as one of priority 0.
#[tactic(auto, using(crate::proofs::check::Descent::words))]
pub(crate) fn levels_of(tasks: &[Task; 16], line: &[TaskNo]) -> u16
    ensures { result ≡ levels_of (items tasks.now line.now) }
{
    let mut word: u16 = 0;
    for k in line {
        word |= level_bit(places::read_at(tasks, *k).priority);
    }
    word
}

// The same of any line; 0 where it is said to be longer than its places.
// A number: it is public, and its contract says 0.
pub fn word_of(tasks: [Task; 16], line: [TaskNo; 16], taken: u8) -> u16
    ensures { result ≡ cond (ltb 16 taken) 0 (levels_of (items tasks (take taken line))) }
{
    if 16 < taken {
        return 0;
    }
    levels_of(&tasks, &line[..taken as usize])
}

// What the lamp shows of a word: the place of its highest bit, nothing where it has none.
#[tactic(auto, using(crate::proofs::levels::Turns::searched), unfolding(crate::specs::Lamp::lamp_below))]
pub fn lamp(levels: u16) -> Option<u8>
    ensures { result ≡ lamp_of levels }
{
    for p in (0..16).rev() {
        if levels & level_bit(p) != 0 {
            return Some(p);
        }
    }
    None
}

impl Table {
    // What the lamp shows.
    pub fn lamp(self) -> Option<u8>
        ensures { result ≡ lamp_of self.levels }
    {
        lamp(self.levels)
    }
}
