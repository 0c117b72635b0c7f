// The second engine (02): it keeps no queue. Its scheduler looks through the sixteen entries and chooses the ready task
// of highest priority, of equals the one that entered first, by its arrival number.
#![tactic(auto)]

use executive::{Answer, Rest, Task};

pub mod checking;
pub mod choosing;
mod executing;
pub mod making;
pub mod moves;
mod promises;
mod step;
mod tallies;

// A task's entry, and its arrival number: 0 where it is not ready.
#[derive(Clone, Copy)]
pub struct Entry {
    pub task: Task,
    pub arrival: u32,
}

// The table: task k has its entry at place k - 1; the last arrival number that was given; what no task's entering or
// departing touches.
#[derive(Clone, Copy)]
pub struct Scanned {
    pub entries: [Entry; 16],
    pub last: u32,
    pub rest: Rest,
}

// The best entry so far, if one is found: where it stands, its priority and its arrival number. A flag, and no Option:
// `choosing::choose` is public, and its contract fixes the other three too where none is found.
#[derive(Clone, Copy)]
pub struct Best {
    pub found: bool,
    pub at: usize,
    pub priority: u8,
    pub arrival: u32,
}

// A step in flight: the table as it stands on the way, and how many ready tasks those who entered so far were put
// behind, all together.
#[derive(Clone, Copy)]
struct Work {
    table: Scanned,
    walked: u8,
}

// What a step hands back: its answer, which is the first engine's, and the table's state.
#[derive(Clone, Copy)]
pub struct Scan {
    pub answer: Answer,
    pub table: Scanned,
}

// What a configuration makes: number 0 and the table, or number 2 and a table of zeros. A number, and no Result:
// `making::fresh` is public, and its contract fixes both.
#[derive(Clone, Copy)]
pub struct Made {
    pub number: u8,
    pub table: Scanned,
}
