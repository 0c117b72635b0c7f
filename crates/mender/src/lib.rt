// Mending a table: the tasks whose own entry breaks a rule become dormant, what names nobody right is cleared, the
// queue and the lines are rebuilt, and every entry that differs is listed.
#![tactic(auto)]

use executive::Table;
use records::TaskNo;

mod closing;
mod entries;
mod filled;
mod lines;
mod links;
pub mod mending;
mod notes;
mod passes;
mod promises;
mod rules;
pub mod telling;

// The rules that a note may name; the number of each is what the list has.
#[derive(Clone, Copy)]
enum Rule {
    Range,
    Time,
    Start,
    Mask,
    Link,
    Dormant,
    Message,
    Lost,
}

// A task whose entry differs, and the number of the rule that it broke first, or 13 for a waiter whose link was lost.
#[derive(Clone, Copy)]
pub struct Note {
    pub task: TaskNo,
    pub rule: u8,
}

// What mending makes: its number, 0 or 17, the table, and the list: its first `noted` places are taken. A
// number and no Result: `mending::mend` is public, and its contract says what the table and the list are with 17 too.
#[derive(Clone, Copy)]
pub struct Mended {
    pub number: u8,
    pub table: Table,
    pub list: [Note; 16],
    pub noted: u8,
}
