// What a step answers: Z, V and C of an accepted call, the active task and its run's argument.
ghost use Rattle.std.specs.Prelude.{◌≡◌, false, ℕ};
ghost use Rattle.executive.specs.declared.Millis.{Millis};
ghost use Rattle.executive.specs.Clock.{skipped_of};
ghost use Rattle.executive.specs.Sheet.{marks, flag_marks, restart_marks};
ghost use Rattle.executive.specs.Step.{IsNoTable, answer_of, has_v, refused};

use crate::{Answer, Marks, Outcome, Table, clock, places};
use records::{TaskNo, Text};

// The answer where there is no well-formed table.
pub fn no_table() -> Answer
    ensures { IsNoTable result }
{
    Answer {
        number: 1,
        z: false,
        v: false,
        c: false,
        active: TaskNo(0),
        argument: 0,
        skipped: 0,
        walked: 0,
        sender: TaskNo(0),
        text: Text(0),
    }
}

pub fn marked(z: bool, v: bool, c: bool) -> Marks
    ensures { result ≡ marks z v c }
{
    Marks {
        z,
        v,
        c,
        skipped: 0,
        sender: TaskNo(0),
        text: Text(0),
    }
}

// Z alone, where it is true.
pub fn only_z(z: bool) -> Marks
    ensures { result ≡ marks z false false }
{
    marked(z, false, false)
}

// Kind 09: C is the flag's old value, Z says that a set or a reset changed nothing.
pub(crate) fn flag_marks(operation: u8, old: bool) -> Marks
    ensures { result ≡ flag_marks operation old }
{
    if operation == 0 {
        return marked(!old, false, old);
    }
    if operation == 1 {
        return marked(old, false, old);
    }
    marked(false, false, old)
}

// V is 1 for 4, 6 and 7.
pub fn has_v(number: u8) -> bool
    ensures { result ≡ has_v number }
{
    number == 4 || number == 6 || number == 7
}

// Kind 01: V where there is no such unit, and the grid times that are passed over.
pub(crate) fn restart_marks(parameter: u8, skipped: u64) -> Marks
    ensures { (start now : Millis) → (n : ℕ) → skipped ≡ skipped_of start now parameter n
        → result ≡ restart_marks start now parameter n }
{
    Marks {
        z: false,
        v: clock::LAST_UNIT < parameter % 8,
        c: false,
        skipped,
        sender: TaskNo(0),
        text: Text(0),
    }
}

impl Table {
    // The answer with a number, marks and how far those that entered walked: the table's active task and its run's
    // argument, both 0 when idle.
    pub(crate) fn answer(self, number: u8, m: Marks, walked: u8) -> Answer
        ensures { result ≡ answer_of number m walked self }
    {
        let active = self.active();
        let tasks = self.tasks;
        let e = places::task_at(tasks, active);
        let sender = m.sender;
        let text = m.text;
        Answer {
            number,
            z: m.z,
            v: m.v,
            c: m.c,
            active,
            argument: e.argument,
            skipped: m.skipped,
            walked,
            sender,
            text,
        }
    }

    // A refusal keeps the table as given. After 1 active and argument are 0, after the others the kept table's.
    pub(crate) fn refuse(self, number: u8) -> Outcome
        ensures { result ≡ refused self number }
    {
        if number == 1 {
            let answer = no_table();
            return Outcome {
                answer,
                table: self,
            };
        }
        let v = has_v(number);
        let m = marked(false, v, false);
        let answer = self.answer(number, m, 0);
        Outcome {
            answer,
            table: self,
        }
    }
}
