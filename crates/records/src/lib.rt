// The records of the executive's calls, of its tick and of its configuration: what one holds.
#![tactic(auto)]

pub mod kinds;
mod promises;
pub mod reading;
pub mod refusals;
pub mod trips;
pub mod writing;

// A task's number, as it came.
#[derive(Clone, Copy, PartialEq, Eq)]
pub struct TaskNo(pub u8);

// A flag's number, as it came.
#[derive(Clone, Copy, PartialEq, Eq)]
pub struct FlagNo(pub u8);

// A controlled subprogram's number, as it came.
#[derive(Clone, Copy, PartialEq, Eq)]
pub struct SubNo(pub u8);

// A message's text, as it came: its eight bytes as one number, the first the highest.
#[derive(Clone, Copy)]
pub struct Text(pub u64);

// The kinds of records, and Unknown for a first byte that is no carried kind.
// Unknown is no None: `kind_of` is public, and `KindIs` has it.
#[derive(Clone, Copy, PartialEq, Eq)]
pub enum Kind {
    Unknown,
    Terminate,
    Restart,
    Pause,
    CancelPause,
    StartIfDormant,
    StartOrQueue,
    Flag,
    Wait,
    Alarm,
    Tick,
    Granule,
    Task,
    End,
    Enter,
    Exit,
    Send,
    Receive,
}

// Why a record, a call or a table is refused. Each has its number (docs/CALLS.md, 6; docs/BLOCKS.md).
#[derive(Clone, Copy, PartialEq, Eq)]
pub enum Refusal {
    NoTable,
    NoConfiguration,
    WrongLength,
    UnknownKind,
    NobodyActive,
    OutOfRange,
    NamesCaller,
    QueueFull,
    AlarmRunning,
    EndOfTime,
    HeldAlready,
    NotHeld,
    StillHeld,
    MessagesFull,
    Unmendable,
    OutsideImage,
    NotListed,
    BufferShort,
    ReadOtherwise,
}

// A record's kind with the numbers of its body as they came, unused bits too.
#[derive(Clone, Copy)]
pub enum Call {
    Terminate,
    Restart {
        parameter: u8,
        count: u8,
    },
    Pause {
        unit: u8,
        count: u8,
    },
    CancelPause {
        task: TaskNo,
    },
    StartIfDormant {
        option: u8,
        task: TaskNo,
    },
    StartOrQueue {
        option: u8,
        task: TaskNo,
        argument: u16,
    },
    Flag {
        operation: u8,
        flag: FlagNo,
    },
    Wait {
        mode: u8,
        mask: u32,
    },
    Alarm {
        unit: u8,
        count: u8,
        flag: FlagNo,
    },
    Tick,
    Granule {
        granule: u8,
    },
    Task {
        own: u8,
        mark: u8,
    },
    End,
    Enter {
        subprogram: SubNo,
    },
    Exit {
        subprogram: SubNo,
    },
    Send {
        task: TaskNo,
        text: Text,
    },
    Receive {
        task: TaskNo,
    },
}
