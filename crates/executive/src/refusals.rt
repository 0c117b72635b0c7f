// The tests of a call's body, and of what only some kinds are refused for (docs/CALLS.md, 4 and 6).
ghost use Rattle.std.specs.Prelude.{◌≡◌, not, ◌||◌, ◌/◌, ◌%◌, ltb, eqb, get_or};
ghost use Rattle.executive.specs.Numbers.{last_unit};
ghost use Rattle.executive.specs.Places.{never};
ghost use Rattle.executive.specs.Lists.{◌and◌};

use crate::{Millis, clock};
use records::{FlagNo, TaskNo};

// 6 in kinds 03, 04 and 05: a task not 1 to the task count.
pub fn no_such_task(count: u8, k: TaskNo) -> bool
    ensures { result ≡ (eqb k.0 0 || ltb count k.0) }
{
    k.0 == 0 || count < k.0
}

pub(crate) fn bad_start(count: u8, option: u8, k: TaskNo) -> bool
    ensures { result ≡ ((eqb k.0 0 || ltb count k.0) || not (eqb (option / 16 % 8) 0)) }
{
    no_such_task(count, k) || option / 16 % 8 != 0
}

pub(crate) fn bad_queue(count: u8, option: u8, k: TaskNo) -> bool
    ensures { result ≡ ((eqb k.0 0 || ltb count k.0) || eqb (option / 32 % 4) 3) }
{
    no_such_task(count, k) || option / 32 % 4 == 3
}

// 7: 05 names its caller c, with bit 6 or 5.
pub(crate) fn names_caller(c: TaskNo, option: u8, k: TaskNo) -> bool
    ensures { result ≡ (eqb k.0 c.0 and not (eqb (option / 32 % 4) 0)) }
{
    k == c && option / 32 % 4 != 0
}

// 6 in kinds 09, 0A and 0B.
pub(crate) fn bad_flag(operation: u8, f: FlagNo) -> bool
    ensures { result ≡ (ltb 31 f.0 || ltb 2 operation) }
{
    31 < f.0 || 2 < operation
}

pub(crate) fn bad_wait(mode: u8, mask: u32) -> bool
    ensures { result ≡ (ltb 1 mode || eqb mask 0) }
{
    1 < mode || mask == 0
}

pub(crate) fn bad_alarm(unit: u8, f: FlagNo) -> bool
    ensures { result ≡ (ltb last_unit unit || ltb 31 f.0) }
{
    clock::LAST_UNIT < unit || 31 < f.0
}

// The alarm of a flag; none past the last flag.
pub(crate) fn alarm_at(alarms: &[Millis], f: FlagNo) -> Millis
    ensures { result ≡ get_or alarms.now f.0 never }
{
    let i = f.0 as usize;
    if i < alarms.len() {
        alarms[i]
    } else {
        Millis(0)
    }
}
