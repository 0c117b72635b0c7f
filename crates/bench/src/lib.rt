// The bench: the listing of a run, from the bytes of its input to the bytes that are printed.
#![tactic(auto)]

use executive::Table;
use records::TaskNo;

mod lines;
pub mod listing;
mod steps;

// What is told next: the header, with the task that is active in the fresh table; a step; a stop with its number.
#[derive(Clone, Copy)]
pub enum Next {
    Header(TaskNo),
    Step,
    Stop(u8),
}

// Where a listing stands: what is told next, if anything is, where in the input the next step begins, that step's
// number, and the table.
#[derive(Clone, Copy)]
pub struct Progress {
    pub next: Option<Next>,
    pub at: usize,
    pub number: u32,
    pub table: Table,
}

// What filling a buffer answers: how many bytes of it are text, whether there is more to tell, and where the
// listing stands. The flag repeats what `run` says: the contract of `listing::fill`, which is public, promises it.
#[derive(Clone, Copy)]
pub struct Filled {
    pub used: usize,
    pub more: bool,
    pub run: Progress,
}
