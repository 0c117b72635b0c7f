// Each call and the tick, a method on the table's state: it takes the state and hands the state back. What the call's
// record does, this does.
ghost use Rattle.executive.specs.Step.{StepsCall};

use crate::{Outcome, Table};
use records::{Call, FlagNo, SubNo, TaskNo, Text};

impl Table {
    // Kind 00.
    pub fn terminate(mut self) -> Outcome
        ensures { StepsCall self Call.Terminate result }
    {
        self.step_call(Call::Terminate)
    }

    // Kind 01.
    pub fn restart(mut self, parameter: u8, count: u8) -> Outcome
        ensures { StepsCall self (Call.Restart parameter count) result }
    {
        self.step_call(Call::Restart { parameter, count })
    }

    // Kind 02.
    pub fn pause(mut self, unit: u8, count: u8) -> Outcome
        ensures { StepsCall self (Call.Pause unit count) result }
    {
        self.step_call(Call::Pause { unit, count })
    }

    // Kind 03.
    pub fn cancel_pause(mut self, task: TaskNo) -> Outcome
        ensures { StepsCall self (Call.CancelPause task) result }
    {
        self.step_call(Call::CancelPause { task })
    }

    // Kind 04.
    pub fn start_if_dormant(mut self, option: u8, task: TaskNo) -> Outcome
        ensures { StepsCall self (Call.StartIfDormant option task) result }
    {
        self.step_call(Call::StartIfDormant { option, task })
    }

    // Kind 05.
    pub fn start_or_queue(mut self, option: u8, task: TaskNo, argument: u16) -> Outcome
        ensures { StepsCall self (Call.StartOrQueue option task argument) result }
    {
        self.step_call(Call::StartOrQueue {
            option,
            task,
            argument,
        })
    }

    // Kind 09.
    pub fn flag(mut self, operation: u8, flag: FlagNo) -> Outcome
        ensures { StepsCall self (Call.Flag operation flag) result }
    {
        self.step_call(Call::Flag { operation, flag })
    }

    // Kind 0A.
    pub fn wait(mut self, mode: u8, mask: u32) -> Outcome
        ensures { StepsCall self (Call.Wait mode mask) result }
    {
        self.step_call(Call::Wait { mode, mask })
    }

    // Kind 0B.
    pub fn alarm(mut self, unit: u8, count: u8, flag: FlagNo) -> Outcome
        ensures { StepsCall self (Call.Alarm unit count flag) result }
    {
        self.step_call(Call::Alarm { unit, count, flag })
    }

    // Kind 06.
    pub fn enter_subprogram(mut self, subprogram: SubNo) -> Outcome
        ensures { StepsCall self (Call.Enter subprogram) result }
    {
        self.step_call(Call::Enter { subprogram })
    }

    // Kind 07.
    pub fn exit_subprogram(mut self, subprogram: SubNo) -> Outcome
        ensures { StepsCall self (Call.Exit subprogram) result }
    {
        self.step_call(Call::Exit { subprogram })
    }

    // Kind 14.
    pub fn send(mut self, task: TaskNo, text: Text) -> Outcome
        ensures { StepsCall self (Call.Send task text) result }
    {
        self.step_call(Call::Send { task, text })
    }

    // Kind 15.
    pub fn receive(mut self, task: TaskNo) -> Outcome
        ensures { StepsCall self (Call.Receive task) result }
    {
        self.step_call(Call::Receive { task })
    }

    // Kind 80.
    pub fn tick(mut self) -> Outcome
        ensures { StepsCall self Call.Tick result }
    {
        self.step_call(Call::Tick)
    }
}
