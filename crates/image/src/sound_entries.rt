// The check in place of the entries and the alarms. Any bytes are held to the rules, as those of the table that they
// load to, and an entry's numbers besides to those of the state that they make.
ghost use Rattle.std.specs.Prelude.{◌≡◌, ◌+◌, ◌-◌, ◌*◌, ◌<◌, ◌≤◌, not, true, eqb, ltb, length, get_or, is_some, IfSome};
ghost use Rattle.std.specs.Int.Bits.{bit_and};
ghost use Rattle.records.specs.Numbers.{number_of, part};
ghost use Rattle.executive.specs.Lists.{◌and◌, all_of};
ghost use Rattle.executive.specs.Places.{no_task};
ghost use Rattle.executive.specs.Check.{is_stored, alarm_right, dormant_entry_right};
ghost use Rattle.image.specs.Image.{image_length, load_of};
ghost use Rattle.image.specs.Sound.{tasks_in, noughts, fields_right, state_right, code_at, sound_at, KindsKnown, below};
ghost use Rattle.image.specs.Marks.{Kinds, Running};

use crate::{ALARMS, AWAITED, IMAGE, QUEUE, SUBS, changes, numbers, zeros};
use executive::{Millis, rules};

// The entry of task k: its own priority, its priority, its waiter and its last scheduled start keep the rules, and its
// run does not name itself.
fn fields_right(k: u8, own: u8, level: u8, waiter: u8, start: u64, count: u8, time: Millis) -> bool
    requires { 0 < k }
    ensures { result ≡ (fields_right count time.0 own level waiter start and not (eqb k waiter)) }
{
    if 15 < own | level {
        return false;
    }
    if waiter != 0 {
        if count < waiter {
            return false;
        }
        if k == waiter {
            return false;
        }
    }
    start <= time.0
}

// The time until which the state of the i-th task waits keeps the rule.
fn time_right(b: &[u8; IMAGE], i: usize, time: Millis) -> bool
    requires { i < 16 }
    ensures { result ≡ is_stored time.0 (number_of (part 8 (i * 26 + 2) b.now)) }
{
    let at = numbers::long_in(b, i * 26 + 2);
    rules::is_stored(Millis(at), time)
}

// A mask of which no flag is set; one of which a flag is not.
fn none_set(mask: u32, flags: u32) -> bool
    ensures { result ≡ (ltb 0 mask and eqb (bit_and flags mask) 0) }
{
    0 < mask && flags & mask == 0
}

fn not_all_set(mask: u32, flags: u32) -> bool
    ensures { result ≡ (ltb 0 mask and not (eqb (bit_and flags mask) mask)) }
{
    0 < mask && flags & mask != mask
}

// The time of the i-th entry, its mask and the number that it waits for are zero.
fn no_wait(b: &[u8; IMAGE], i: usize) -> bool
    requires { i < 16 }
    ensures { result ≡ (noughts b.now 12 (i * 26 + 2) and eqb (get_or b.now (898 + i) 0) 0) }
{
    zeros::twelve(b, i * 26 + 2) | numbers::wide(b[AWAITED + i]) == 0
}

// Its mask and that number are; its time and that number are.
fn no_mask(b: &[u8; IMAGE], i: usize) -> bool
    requires { i < 16 }
    ensures { result ≡ (noughts b.now 4 (i * 26 + 10) and eqb (get_or b.now (898 + i) 0) 0) }
{
    zeros::quad(b, i * 26 + 10) | numbers::wide(b[AWAITED + i]) == 0
}

fn no_time(b: &[u8; IMAGE], i: usize) -> bool
    requires { i < 16 }
    ensures { result ≡ (noughts b.now 8 (i * 26 + 2) and eqb (get_or b.now (898 + i) 0) 0) }
{
    zeros::eight(b, i * 26 + 2) | numbers::wide(b[AWAITED + i]) == 0
}

// Its time and its mask are; and all of it is but its own priority and its kind.
fn no_other(b: &[u8; IMAGE], i: usize) -> bool
    requires { i < 16 }
    ensures { result ≡ noughts b.now 12 (i * 26 + 2) }
{
    zeros::twelve(b, i * 26 + 2) == 0
}

fn is_dormant(b: &[u8; IMAGE], i: usize) -> bool
    requires { i < 16 }
    ensures { result ≡ (noughts b.now 24 (i * 26 + 2) and eqb (get_or b.now (898 + i) 0) 0) }
{
    zeros::twelve(b, i * 26 + 2) | zeros::twelve(b, i * 26 + 14) | numbers::wide(b[AWAITED + i])
        == 0
}

// The numbers of the state of the i-th task are those of the state that they make, and it keeps the rules; dormant, the
// entry holds zeros. Only what its kind has is read as a number.
// The kinds are bytes of an image (docs/TABLE.md), and so numbers.
fn state_right(b: &[u8; IMAGE], i: usize, count: u8, time: Millis, flags: u32) -> bool
    requires { i < 16 }
    ensures { result ≡ (code_at b.now i and state_right count time.0 flags
        (get_or (tasks_in b.now) i no_task).state
        and dormant_entry_right (get_or (tasks_in b.now) i no_task)) }
{
    let kind = b[i * 26 + 1];
    match kind {
        0 => is_dormant(b, i),
        1 => no_wait(b, i),
        2 => no_mask(b, i) && time_right(b, i, time),
        3 => no_mask(b, i) && time_right(b, i, time),
        4 => no_time(b, i) && none_set(numbers::word_in(b, i * 26 + 10), flags),
        5 => no_time(b, i) && not_all_set(numbers::word_in(b, i * 26 + 10), flags),
        6 => no_wait(b, i),
        7 => no_wait(b, i),
        8 => no_other(b, i) && b[AWAITED + i] <= 7,
        9 => no_other(b, i) && b[AWAITED + i] <= count,
        _ => false,
    }
}

// The i-th entry is as it should be.
fn entry_right(b: &[u8; IMAGE], i: usize, count: u8, time: Millis, flags: u32) -> bool
    requires { i < 16 }
    ensures { result ≡ sound_at b.now count time.0 flags i }
{
    let at = i * 26;
    let start = numbers::long_in(b, at + 17);
    if !fields_right(
        (i + 1) as u8,
        b[at],
        b[at + 14],
        b[at + 25],
        start,
        count,
        time,
    ) {
        return false;
    }
    state_right(b, i, count, time, flags)
}

// The entries of the tasks are as they should be.
pub(crate) fn entries_right(b: &[u8; IMAGE], count: u8, time: Millis, flags: u32) -> bool
    requires { count ≤ 16 }
    ensures { result ≡ below (sound_at b.now count time.0 flags) count }
{
    (0..count).all(|i| entry_right(b, i as usize, count, time, flags))
}

// The entries past the task count are zero, and the numbers that their states wait for.
pub(crate) fn blank_past(b: &[u8; IMAGE], count: u8) -> bool
    requires { count ≤ 16 }
    ensures { result ≡ (noughts b.now (416 - count * 26) (count * 26) and noughts b.now
        (914 - (898 + count)) (898 + count)) }
{
    if !zeros::are_zero(b, (count as usize) * 26, QUEUE) {
        return false;
    }
    zeros::are_zero(b, AWAITED + count as usize, SUBS)
}

// Those of each kind, bit i for the task whose entry is the i-th.
pub(crate) fn kind_sets(b: &[u8; IMAGE], count: u8) -> [u16; 10]
    requires { (count ≤ 16) × KindsKnown b.now count }
    ensures { Kinds count result (tasks_in b.now) }
{
    let mut sets = [0u16; 10];
    for k in 0..count {
        let m = b[(k as usize) * 26 + 1] as usize;
        sets[m] |= 1u16 << (k as u32);
    }
    sets
}

// The alarms that are running, where each of them has a stored time.
pub(crate) fn all_alarms(b: &[u8; IMAGE], time: Millis) -> Option<u32>
    ensures right { is_some result ≡ all_of (alarm_right time.0) (load_of b.now).rest.alarms }
    ensures running { IfSome result (λ running. Running running (load_of b.now).rest.alarms) }
{
    let mut running: u32 = 0;
    for i in 0..32u8 {
        let place = ALARMS + (i as usize) * 8;
        if zeros::eight(b, place) != 0 {
            let at = numbers::long_in(b, place);
            if !rules::is_stored(Millis(at), time) {
                return None;
            }
            running |= changes::bit_of(i as usize);
        }
    }
    Some(running)
}
