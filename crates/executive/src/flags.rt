// The event flags and their alarms: flag n is bit n. Kinds 09, 0A and 0B.
ghost use Rattle.std.specs.Prelude.{◌≡◌, false, not, cond, ◌||◌, ◌<◌, ◌≤◌, eqb, ltb};
ghost use Rattle.executive.specs.Numbers.{last_unit, end_of_time};
ghost use Rattle.executive.specs.Lists.{◌and◌};
ghost use Rattle.executive.specs.Flags.{is_set, flag_set, flag_reset, with_flags, mode_of, met};
ghost use Rattle.executive.specs.Clock.{with_alarm};
ghost use Rattle.executive.specs.Decisions.{set_deed, flag_deed, wait_deed, alarm_deed, refusing, doing};
ghost use Rattle.executive.specs.Sheet.{only_z, marks, flag_marks};

use crate::decisions::{Change, Decision, Deed, Leave};
use crate::{Millis, Mode, Rest, State, Task, answers, clock, decisions, pool, refusals, waking};
use records::{FlagNo, Refusal, TaskNo};

// Whether a wait is for any (0) or for all (1).
pub(crate) fn mode_of(mode: u8) -> Mode
    ensures { result ≡ mode_of mode }
{
    if mode == 0 {
        return Mode::Any;
    }
    Mode::All
}

// Whether the condition of a wait holds.
pub(crate) fn is_met(flags: u32, mode: Mode, mask: u32) -> bool
    ensures { result ≡ met flags mode mask }
{
    match mode {
        Mode::Any => flags & mask != 0,
        Mode::All => flags & mask == mask,
    }
}

// Whether a flag is set.
pub(crate) fn is_set(flags: u32, f: FlagNo) -> bool
    requires { f.0 < 32 }
    ensures { result ≡ is_set flags f.0 }
{
    flags & clock::bit_of(f) != 0
}

// The flags with one set, and with one reset and every other as it was.
fn flag_set(flags: u32, f: FlagNo) -> u32
    requires { f.0 < 32 }
    ensures { result ≡ flag_set flags f.0 }
{
    flags | clock::bit_of(f)
}

fn flag_reset(flags: u32, f: FlagNo) -> u32
    requires { f.0 < 32 }
    ensures { result ≡ flag_reset flags f.0 }
{
    flags & !clock::bit_of(f)
}

impl Rest {
    // The flags are others.
    pub(crate) fn with_flags(mut self, flags: u32) -> Rest
        ensures { result ≡ with_flags flags self }
    {
        self.flags = flags;
        self
    }

    // A flag's alarm is stored.
    pub(crate) fn with_alarm(mut self, f: FlagNo, at: Millis) -> Rest
        requires { f.0 < 32 }
        ensures { result ≡ with_alarm f.0 at self }
    {
        self.alarms[f.0 as usize] = at;
        self
    }
}

// Kind 09, operation 1, and kind 0B with count 0: all tasks whose condition now holds enter.
fn set(tasks: &[Task; 16], flags: u32, f: FlagNo) -> Deed
    requires { f.0 < 32 }
    ensures { result ≡ set_deed tasks.now flags f }
{
    let more = flag_set(flags, f);
    let nobody = decisions::none();
    let entrants = waking::held(nobody, tasks, more);
    Deed {
        leave: Leave::Stays,
        entrants,
        request: pool::NO_REQUEST,
        change: Change::Flags(more),
        empties: TaskNo(0),
    }
}

// Kind 09: operation 0 resets, 1 sets, 2 tests.
pub(crate) fn flag(tasks: &[Task; 16], flags: u32, operation: u8, f: FlagNo) -> Decision
    ensures { result ≡ cond (ltb 31 f.0 || ltb 2 operation) (refusing 6)
        (doing (flag_marks operation (is_set flags f.0)) (flag_deed tasks.now flags operation f)) }
{
    if refusals::bad_flag(operation, f) {
        return decisions::refuse(Refusal::OutOfRange);
    }
    let old = is_set(flags, f);
    let marks = answers::flag_marks(operation, old);
    if operation == 0 {
        let less = flag_reset(flags, f);
        let reset = decisions::alone(Leave::Stays, Change::Flags(less));
        return decisions::accepted(marks, reset);
    }
    if operation == 1 {
        let deed = set(tasks, flags, f);
        return decisions::accepted(marks, deed);
    }
    let still = decisions::nothing();
    decisions::accepted(marks, still)
}

// Kind 0A: the caller leaves, unless its condition holds already.
pub fn wait(flags: u32, mode: u8, mask: u32) -> Decision
    ensures { result ≡ cond (ltb 1 mode || eqb mask 0) (refusing 6) (doing (only_z (met flags (mode_of mode) mask)) (wait_deed flags mode mask)) }
{
    if refusals::bad_wait(mode, mask) {
        return decisions::refuse(Refusal::OutOfRange);
    }
    let m = mode_of(mode);
    if is_met(flags, m, mask) {
        let z = answers::only_z(true);
        let still = decisions::nothing();
        return decisions::accepted(z, still);
    }
    let marks = answers::only_z(false);
    let deed = decisions::alone(Leave::As(State::Flags(m, mask)), Change::Same);
    decisions::accepted(marks, deed)
}

// Kind 0B: count 0 is a set, with its marks; any other count a mere look at the flag.
pub(crate) fn alarm(
    tasks: &[Task; 16],
    running: Millis,
    now: Millis,
    flags: u32,
    unit: u8,
    count: u8,
    f: FlagNo,
) -> Decision
    requires { now.0 ≤ end_of_time }
    ensures { result ≡ cond (ltb last_unit unit || ltb 31 f.0) (refusing 6)
        (cond (not (eqb running.0 0)) (refusing 9)
        (doing (marks (eqb count 0 and is_set flags f.0) false (is_set flags f.0))
        (alarm_deed tasks.now now flags unit count f))) }
{
    if refusals::bad_alarm(unit, f) {
        return decisions::refuse(Refusal::OutOfRange);
    }
    if running.0 != 0 {
        return decisions::refuse(Refusal::AlarmRunning);
    }
    let old = is_set(flags, f);
    if count == 0 {
        let set_marks = answers::flag_marks(1, old);
        let deed = set(tasks, flags, f);
        return decisions::accepted(set_marks, deed);
    }
    let wait = clock::millis_of(unit, count);
    let at = Millis(now.0 + wait.0);
    let marks = answers::flag_marks(2, old);
    let stored = decisions::alone(Leave::Stays, Change::Alarm(f, at));
    decisions::accepted(marks, stored)
}
