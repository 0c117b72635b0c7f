// The step: the queue's own tests, the decision, its execution; from a record's bytes and from a call.
ghost use Rattle.std.specs.Prelude.{◌≡◌, true};
ghost use Rattle.executive.specs.Check.{queue_right};
ghost use Rattle.executive.specs.Step.{step_of, Steps, StepsCall};

use crate::{Outcome, Table, deciding};
use records::{Call, Refusal, writing};

impl Table {
    // A step at a table whose queue is right: refused with the first number that is given, or accepted.
    fn perform(self, bytes: &[u8]) -> Outcome
        requires { queue_right self ≡ true }
        ensures { result ≡ step_of self bytes.now }
    {
        let tasks = self.tasks;
        let rest = self.rest;
        let c = self.active();
        let d = deciding::decide(tasks, rest, c, bytes);
        if d.number != 0 {
            return self.refuse(d.number);
        }
        let deed = d.deed;
        let w = self.execute(deed);
        let table = w.table;
        let m = d.marks;
        let answer = table.answer(0, m, w.walked);
        Outcome { answer, table }
    }

    // A step from a record's bytes, whatever the table and the bytes are: the answer, and the table's state.
    pub fn step(self, bytes: &[u8]) -> Outcome
        ensures { Steps self bytes.now result }
    {
        if self.queue_right() {
            return self.perform(bytes);
        }
        self.refuse(Refusal::NoTable.into())
    }

    // The same from a call that was read: the step of its record.
    pub fn step_call(self, call: Call) -> Outcome
        ensures { StepsCall self call result }
    {
        let mut record = [0u8; 10];
        match writing::write(call, &mut record) {
            Ok(n) => self.step(&record[..n]),
            Err(why) => self.refuse(why.into()),
        }
    }
}
