// Time: the milliseconds of an interval, the time that a restart aims at, the clock's advance with the alarms that
// are due.
ghost use Rattle.std.specs.Prelude.{◌≡◌, ◌<◌, ◌≤◌, ◌+◌, ◌*◌, ◌/◌, ◌%◌, ◌^◌, get_or};
ghost use Rattle.executive.specs.Numbers.{end_of_time, longest};
ghost use Rattle.executive.specs.Clock.{units, interval, missed, next_on_grid, skips_missed, aim_at, skipped_of, is_due, advanced};
ghost use Rattle.executive.specs.Lists.{next_of, each};
ghost use Rattle.executive.specs.Decisions.{first_due, rung_in};

use crate::{Millis, Rest};
use records::FlagNo;

// The last unit of an interval, and the longest interval in ms; the last time that the clock may show.
pub const LAST_UNIT: u8 = 5;

pub(crate) const LONGEST: u64 = 22032000000;

pub const END_OF_TIME: u64 = 1099511627776;

// The word with a flag's bit alone.
pub(crate) fn bit_of(f: FlagNo) -> u32
    requires { f.0 < 32 }
    ensures { result ≡ 2 ^ f.0 }
{
    1u32 << (f.0 as u32)
}

// The granule, which a table holds as a byte, as a length of time.
pub(crate) fn granule_of(granule: u8) -> Millis
    ensures { result.0 ≡ granule }
{
    Millis(granule as u64)
}

// The milliseconds of one of a unit; none where there is no such unit.
// A number: `units` and `interval` are stated so.
fn unit_of(unit: u8) -> u64
    ensures { result ≡ get_or units unit 0 }
{
    match unit {
        0 => 1,
        1 => 10,
        2 => 1000,
        3 => 60000,
        4 => 3600000,
        5 => 86400000,
        _ => 0,
    }
}

// So many of a unit added up, bit by bit of the count: the unit is doubled from turn to turn, and counts where the
// bit is set.
// A loop, since the compiler makes a product again of a sum of shifts by constants; a while, since it goes by the bits
// that are left and not by a count.
fn added_up(unit: u64, count: u8) -> u64
    requires { count * unit ≤ longest }
    ensures { result ≡ count * unit }
{
    let mut sum: u64 = 0;
    let mut step = unit;
    let mut left = count;
    while left != 0 {
        if left & 1 == 1 {
            sum = sum + step;
        }
        step = step << 1;
        left = left >> 1;
    }
    sum
}

// The milliseconds of a count of units.
pub fn millis_of(unit: u8, count: u8) -> Millis
    ensures { result ≡ interval unit count }
{
    let one = unit_of(unit);
    Millis(added_up(one, count))
}

// A length of time in whole intervals, and what is left of it.
#[derive(Clone, Copy)]
struct Parts {
    times: u64,
    rest: u64,
}

// Long division by shifts and subtractions: the interval is doubled until it is more than the length, then halved as
// often, and taken off where it fits. A turn up and a turn down for each bit of the quotient: whiles, since the
// interval itself says when they end.
fn split(length: Millis, every: Millis) -> Parts
    requires { (0 < every.0) × (length.0 ≤ end_of_time) × (every.0 ≤ longest) }
    ensures { (result.times ≡ length.0 / every.0) × (result.rest ≡ length.0 % every.0) }
{
    let mut step = every.0;
    while step <= length.0 {
        step = step << 1;
    }
    let mut times: u64 = 0;
    let mut rest = length.0;
    while step != every.0 {
        step = step >> 1;
        times = times << 1;
        if step <= rest {
            rest = rest - step;
            times = times + 1;
        }
    }
    Parts { times, rest }
}

// Whether a restart skips what was missed: bit 6 of its parameter, bit 7 clear, and a count.
fn skips_missed(param: u8, count: u8) -> bool
    ensures { result ≡ skips_missed param count }
{
    param / 64 % 4 == 1 && 0 < count
}

// The time that a restart aims at, and how many grid times it passes over.
#[derive(Clone, Copy)]
pub(crate) struct Aim {
    pub at: Millis,
    pub skipped: u64,
}

// The first time on a restart's grid that is after now, and those that were missed.
fn next_on_grid(start: Millis, now: Millis, every: Millis) -> Aim
    requires { (start.0 ≤ now.0) × (now.0 ≤ end_of_time) × (0 < every.0) × (every.0 ≤ longest) }
    ensures { (result.at ≡ next_on_grid start now every) × (result.skipped ≡ missed start now every) }
{
    let length = Millis(now.0 - start.0);
    let parts = split(length, every);
    let at = Millis(now.0 + (every.0 - parts.rest));
    Aim {
        at,
        skipped: parts.times,
    }
}

// An aim that passes over no grid time.
fn straight(at: Millis) -> Aim
    ensures { (result.at ≡ at) × (result.skipped ≡ 0) }
{
    Aim { at, skipped: 0 }
}

// What a restart aims at. One division tells both parts of it.
pub(crate) fn aim_of(start: Millis, now: Millis, param: u8, count: u8) -> Aim
    requires { (start.0 ≤ now.0) × (now.0 ≤ end_of_time) }
    ensures { (result.at ≡ aim_at start now param count) × (result.skipped ≡ skipped_of start now param count) }
{
    let unit = param % 8;
    if LAST_UNIT < unit {
        return straight(now);
    }
    let wait = millis_of(unit, count);
    if skips_missed(param, count) {
        return next_on_grid(start, now, wait);
    }
    if param < 128 {
        return straight(Millis(start.0 + wait.0));
    }
    straight(Millis(now.0 + wait.0))
}

// Whether an alarm is due: it is running, and its time has come.
fn is_due(alarm: Millis, now: Millis) -> bool
    ensures { result ≡ is_due now.0 alarm }
{
    alarm.0 != 0 && alarm.0 <= now.0
}

// The place of the first alarm that is due; the number of alarms where there is none, as `Change::Clock` is told it.
pub(crate) fn first_due(alarms: &[Millis], now: Millis) -> usize
    ensures { result ≡ next_of (is_due now.0) 0 alarms.now }
{
    alarms
        .iter()
        .position(|alarm| is_due(*alarm, now))
        .unwrap_or(alarms.len())
}

// The flags once the due alarms have rung, from the first of them on.
pub(crate) fn rings(alarms: &[Millis; 32], flags: u32, first: usize, now: Millis) -> u32
    requires { first ≡ next_of (is_due now.0) 0 alarms.now }
    ensures { result ≡ each (rung_in now.0 alarms.now) 32 0 flags }
{
    let mut more = flags;
    for i in first..32 {
        if is_due(alarms[i], now) {
            more |= bit_of(FlagNo(i as u8));
        }
    }
    more
}

impl Rest {
    // The clock gains a granule, and the due alarms ring: each sets its flag and is cleared. Only they are touched,
    // from the first of them on.
    pub(crate) fn advance(mut self, first: usize) -> Rest
        requires { (self.clock.0 + self.granule ≤ end_of_time) × (first ≡ first_due self) }
        ensures { result ≡ advanced self }
    {
        self.clock = Millis(self.clock.0 + granule_of(self.granule).0);
        for i in first..32 {
            if is_due(self.alarms[i], self.clock) {
                self.alarms[i] = Millis(0);
                self.flags |= bit_of(FlagNo(i as u8));
            }
        }
        self
    }
}
