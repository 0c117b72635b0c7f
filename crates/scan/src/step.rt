// The step of the second engine: the check of its arrival numbers, the decision, its execution.
ghost use Rattle.std.specs.Prelude.{◌≡◌, true};
ghost use Rattle.scan.specs.Sound.{arrivals_right};
ghost use Rattle.scan.specs.Step.{answer_scan, refused_scan, scan_of, Scans};

use crate::{Scan, Scanned, moves};
use executive::{Answer, Marks, answers, deciding, places};
use records::Refusal;

impl Scanned {
    // The answer with a number, marks and how far those that entered walked: the active task and its run's argument,
    // both 0 when idle.
    fn answer(self, number: u8, m: Marks, walked: u8) -> Answer
        ensures { result ≡ answer_scan number m walked self }
    {
        let active = self.active();
        let task = places::task_at(moves::tasks_in(self.entries), active);
        Answer {
            number,
            z: m.z,
            v: m.v,
            c: m.c,
            active,
            argument: task.argument,
            skipped: m.skipped,
            walked,
            sender: m.sender,
            text: m.text,
        }
    }

    // A refusal keeps the table as given. After 1 active and argument are 0.
    fn refuse(self, number: u8) -> Scan
        ensures { result ≡ refused_scan self number }
    {
        let answer = if number == 1 {
            answers::no_table()
        } else {
            self.answer(
                number,
                answers::marked(false, answers::has_v(number), false),
                0,
            )
        };
        Scan {
            answer,
            table: self,
        }
    }

    // A step at a table whose arrival numbers are in order: refused with the first number that is given, or accepted.
    fn perform(self, bytes: &[u8]) -> Scan
        requires { arrivals_right self ≡ true }
        ensures { result ≡ scan_of self bytes.now }
    {
        let tasks = moves::tasks_in(self.entries);
        let settled = deciding::settle(tasks, self.rest, self.active(), bytes);
        let d = settled.decision;
        if d.number != 0 {
            return self.refuse(d.number);
        }
        let done = self.execute(d.deed, settled.rest);
        Scan {
            answer: done.table.answer(0, d.marks, done.walked),
            table: done.table,
        }
    }

    // A step from a record's bytes, whatever the table and the bytes are: the answer, and the table's state.
    pub fn step(self, bytes: &[u8]) -> Scan
        ensures { Scans self bytes.now result }
    {
        if self.arrivals_right() {
            return self.perform(bytes);
        }
        self.refuse(Refusal::NoTable.into())
    }
}
