// The executive: the nouns of its table, and the step that takes a table's state and hands the state back.
#![tactic(auto)]

use records::{SubNo, TaskNo, Text};

pub mod answers;
pub mod calls;
pub mod check;
pub mod clock;
pub mod configuration;
pub mod deciding;
pub mod decisions;
pub mod entries;
pub mod executing;
pub mod flags;
pub mod levels;
mod lines;
mod message_check;
pub mod messages;
mod methods;
mod passes;
pub mod places;
pub mod pool;
mod promises;
mod queue;
mod queue_check;
pub mod refusals;
pub mod rules;
pub mod starts;
pub mod states;
mod step;
mod subprogram_check;
mod subprograms;
mod waiters;
mod waking;

// A time of the clock, or a length of time, in milliseconds.
#[derive(Clone, Copy)]
pub struct Millis(pub u64);

// Whether a task waits for any or for all flags of a mask.
#[derive(Clone, Copy)]
pub enum Mode {
    Any,
    All,
}

// A task is in exactly one state. Dormant stands first: an entry of zeros is a dormant task's.
#[derive(Clone, Copy)]
pub enum State {
    Dormant,
    Ready,
    Paused(Millis),
    Due(Millis),
    Flags(Mode, u32),
    AwaitStart,
    AwaitEnd,
    AwaitSub(SubNo),
    AwaitMessage(TaskNo),
}

// A task's entry: its own priority; its run's current priority and argument; who waits for its end; its state; its
// last scheduled start. In this order an entry is 32 bytes long.
#[derive(Clone, Copy)]
pub struct Task {
    pub own: u8,
    pub priority: u8,
    pub argument: u16,
    pub end_waiter: TaskNo,
    pub state: State,
    pub start: Millis,
}

// A queued start request. It names at most one waiter: for its start, or for the end of the run that it begins.
#[derive(Clone, Copy)]
pub struct Request {
    pub target: TaskNo,
    pub priority: u8,
    pub argument: u16,
    pub start_waiter: TaskNo,
    pub end_waiter: TaskNo,
}

// A controlled subprogram (02): the task inside it, its holder, 0 where it is free; and those who wait to enter, first
// to last. The first `waiting` places of the line are taken.
#[derive(Clone, Copy)]
pub struct Sub {
    pub holder: TaskNo,
    pub line: [TaskNo; 16],
    pub waiting: u8,
}

// A message that waits (02): the task that it is for, the one that sent it, the sender's priority when it was sent, and
// its text.
#[derive(Clone, Copy)]
pub struct Message {
    pub to: TaskNo,
    pub sender: TaskNo,
    pub priority: u8,
    pub text: Text,
}

// The message that stands in a task's entry (02), put there while the task waited for it: its sender and its text,
// zeros where there is none.
#[derive(Clone, Copy)]
pub struct Mail {
    pub sender: TaskNo,
    pub text: Text,
}

// What no task's entering or departing touches. An alarm at 0 is not running. The first `sent` places of the messages
// are taken; the mail of task k is at place k - 1.
#[derive(Clone, Copy)]
pub struct Rest {
    pub count: u8,
    pub granule: u8,
    pub clock: Millis,
    pub flags: u32,
    pub alarms: [Millis; 32],
    pub pool: [Request; 32],
    pub queued: u8,
    pub subs: [Sub; 8],
    pub messages: [Message; 32],
    pub sent: u8,
    pub mail: [Mail; 16],
}

// The table. The first `ready` places of the queue are taken; task k has its entry at place k - 1. Bit p of `levels` is
// set exactly if some ready task has priority p.
#[derive(Clone, Copy)]
pub struct Table {
    pub tasks: [Task; 16],
    pub queue: [TaskNo; 16],
    pub ready: u8,
    pub levels: u16,
    pub rest: Rest,
}

// A step in flight: the table as it stands on the way, and how many ready tasks those who entered so far were put
// behind, all together (02).
#[derive(Clone, Copy)]
struct Work {
    table: Table,
    walked: u8,
}

// What a caller of kind 05 waits for.
// No Option: `leave_of` and both deeds of a start are stated of its three cases.
#[derive(Clone, Copy)]
enum AwaitedMoment {
    ForNothing,
    ForStart,
    ForEnd,
}

// What an accepted call says of itself: Z, V and C, how many grid times it passed over (docs/CALLS.md, 2), and the
// sender and the text of the message that it hands out (02), zeros where it hands out none.
#[derive(Clone, Copy)]
pub struct Marks {
    pub z: bool,
    pub v: bool,
    pub c: bool,
    pub skipped: u64,
    pub sender: TaskNo,
    pub text: Text,
}

// What a step answers: its number, Z, V and C, the active task (0 when idle) and its run's argument; how many grid
// times a restart passed over; how many ready tasks were passed over by those that entered; the sender and the text of
// the message that a receive hands out. A number and no error: it is the byte that the C interface hands out.
#[derive(Clone, Copy)]
pub struct Answer {
    pub number: u8,
    pub z: bool,
    pub v: bool,
    pub c: bool,
    pub active: TaskNo,
    pub argument: u16,
    pub skipped: u64,
    pub walked: u8,
    pub sender: TaskNo,
    pub text: Text,
}

// What a step hands back: its answer, and the table's state.
#[derive(Clone, Copy)]
pub struct Outcome {
    pub answer: Answer,
    pub table: Table,
}

// What a configuration makes: an answer with number 0 and the table, or one with number 2 and a table of zeros.
#[derive(Clone, Copy)]
pub struct Fresh {
    pub answer: Answer,
    pub table: Table,
}
