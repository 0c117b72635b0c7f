// Kinds 09, 0B and 80 decided on the lent bytes of an image: those that look at all tasks or all alarms.
ghost use Rattle.std.specs.Prelude.{◌≡◌, cond, eqb, ◌<◌, length};
ghost use Rattle.records.specs.declared.TaskNo.{TaskNo};
ghost use Rattle.records.specs.declared.Call.TheVariants as call;
ghost use Rattle.executive.specs.declared.Table.{Table};
ghost use Rattle.executive.specs.States.{has_mask};
ghost use Rattle.executive.specs.WellFormed.{WellFormed};
ghost use Rattle.executive.specs.Decisions.{set_deed};
ghost use Rattle.executive.specs.Sheet.{decided};
ghost use Rattle.image.specs.Image.{image_length};
ghost use Rattle.image.specs.Laid.{Laid};
ghost use Rattle.image.specs.Marks.{passed, Marked};
ghost use Rattle.image.specs.Waking.{Learned};

use crate::deciding::Watched;
use crate::{ALARMS, IMAGE, changes, deeds, fields, numbers, ringing, waking};
use executive::decisions::{Change, Decision, Deed, Leave};
use executive::{Millis, answers, clock, decisions};
use records::{FlagNo, Refusal};

// Kind 09, operation 1, and kind 0B with count 0: all tasks whose condition now holds enter.
fn set(b: &[u8; IMAGE], flags: u32, f: FlagNo, flagged: u16) -> Deed
    requires { f.0 < 32 }
    ensures { (t : Table) → Laid b.now t → Marked 16 flagged (passed has_mask t.tasks)
        → result ≡ set_deed t.tasks flags f }
{
    let more = flags | changes::bit_of(f.0 as usize);
    let entrants = waking::woken(b, 0, 0, flagged, more);
    deeds::letting_in(entrants, Change::Flags(more))
}

// Kind 09: operation 0 resets, 1 sets, 2 tests.
pub(crate) fn flag(b: &[u8; IMAGE], operation: u8, f: FlagNo, flagged: u16) -> Decision
    ensures { (t : Table) → Laid b.now t → WellFormed t
        → Marked 16 flagged (passed has_mask t.tasks) → (c : TaskNo)
        → result ≡ decided t.tasks t.rest c (call.Flag operation f) }
{
    if 31 < f.0 {
        return decisions::refuse(Refusal::OutOfRange);
    }
    if 2 < operation {
        return decisions::refuse(Refusal::OutOfRange);
    }
    let flags = numbers::word_in(b, fields::FLAGS);
    let bit = changes::bit_of(f.0 as usize);
    let old = flags & bit != 0;
    if operation == 0 {
        let reset = decisions::alone(Leave::Stays, Change::Flags(flags & !bit));
        return decisions::accepted(answers::marked(!old, false, old), reset);
    }
    if operation == 1 {
        let deed = set(b, flags, f, flagged);
        return decisions::accepted(answers::marked(old, false, old), deed);
    }
    let still = decisions::nothing();
    decisions::accepted(answers::marked(false, false, old), still)
}

// Kind 0B: count 0 is a set, with its marks; any other count a mere look at the flag. A clock past its end is none of a
// well-formed table.
pub(crate) fn alarm(b: &[u8; IMAGE], unit: u8, count: u8, f: FlagNo, flagged: u16) -> Decision
    ensures { (t : Table) → Laid b.now t → WellFormed t
        → Marked 16 flagged (passed has_mask t.tasks) → (c : TaskNo)
        → result ≡ decided t.tasks t.rest c (call.Alarm unit count f) }
{
    if clock::LAST_UNIT < unit {
        return decisions::refuse(Refusal::OutOfRange);
    }
    if 31 < f.0 {
        return decisions::refuse(Refusal::OutOfRange);
    }
    if numbers::long_in(b, ALARMS + (f.0 as usize) * 8) != 0 {
        return decisions::refuse(Refusal::AlarmRunning);
    }
    let flags = numbers::word_in(b, fields::FLAGS);
    let old = flags & changes::bit_of(f.0 as usize) != 0;
    if count == 0 {
        let deed = set(b, flags, f, flagged);
        return decisions::accepted(answers::marked(old, false, old), deed);
    }
    let now = numbers::long_in(b, fields::CLOCK);
    if clock::END_OF_TIME < now {
        return decisions::refuse(Refusal::NoTable);
    }
    let wait = clock::millis_of(unit, count);
    let at = Millis(now + wait.0);
    let stored = decisions::alone(Leave::Stays, Change::Alarm(f, at));
    decisions::accepted(answers::marked(false, false, old), stored)
}

// Of those who wait for flags nobody's condition holds where no flag has been set.
fn held_by(flags: u32, more: u32, flagged: u16) -> u16
    ensures { result ≡ cond (eqb more flags) 0 flagged }
{
    if more == flags {
        return 0;
    }
    flagged
}

// Kind 80: the first alarm that is due is looked for once, and told with the deed.
pub(crate) fn tick(b: &[u8; IMAGE], w: Watched) -> Decision
    ensures { (t : Table) → Laid b.now t → WellFormed t → Learned w.timed w.flagged w.running t
        → (c : TaskNo) → result ≡ decided t.tasks t.rest c call.Tick }
{
    let now = numbers::long_in(b, fields::CLOCK);
    if clock::END_OF_TIME < now {
        return decisions::refuse(Refusal::EndOfTime);
    }
    let time = now + b[fields::GRANULE] as u64;
    if clock::END_OF_TIME < time {
        return decisions::refuse(Refusal::EndOfTime);
    }
    let flags = numbers::word_in(b, fields::FLAGS);
    let first = ringing::next_due(b, w.running, 0, time);
    let more = ringing::rings(b, w.running, flags, first, time);
    let held = held_by(flags, more, w.flagged);
    let entrants = waking::woken(b, w.timed, time, held, more);
    let deed = deeds::letting_in(entrants, Change::Clock(first as usize));
    decisions::accepted(answers::marked(false, false, false), deed)
}
