// Why a task is not running: each task's cause, and the path from a task to whom it waits for, with its ring.
#![tactic(auto)]

use executive::{Millis, Mode};
use records::{SubNo, TaskNo};

mod causes;
pub mod following;
mod promises;
pub mod telling;

// Why a task is not running, or that it is: Ready behind how many; Paused and Due until when; Flags with those that are
// missing; Start and EndOfRequest with the request's place among the queued ones, from 1, and its task; EndOfRun with
// the task whose run is waited for; Subprogram with its number and its holder; Message with its sender, 0 for any.
// Dormant stands first: a blank step is a dormant task's.
#[derive(Clone, Copy)]
pub enum Cause {
    Dormant,
    Active,
    Ready(u8),
    Paused(Millis),
    Due(Millis),
    Flags(Mode, u32),
    Start(u8, TaskNo),
    EndOfRequest(u8, TaskNo),
    EndOfRun(TaskNo),
    Subprogram(SubNo, TaskNo),
    Message(TaskNo),
}

// A task on the path, and why it is not running.
#[derive(Clone, Copy)]
pub struct Step {
    pub task: TaskNo,
    pub cause: Cause,
}

// What is asked of a table is answered by a number (docs/CALLS.md, 6), V with 6, and the path: its first `length`
// steps. The last `ring` of them wait for each other in a ring; 0: no ring. A number and no Result: `explain` is
// public, and its contract says what the path is with 1 and 6 too.
#[derive(Clone, Copy)]
pub struct Reasons {
    pub number: u8,
    pub v: bool,
    pub steps: [Step; 16],
    pub length: u8,
    pub ring: u8,
}

// What a task waits for: the queued request at a place, from 1, a task's run, or a subprogram that is held.
#[derive(Clone, Copy)]
enum On {
    Request(u8),
    Run(TaskNo),
    Held(SubNo),
}
