// The check in place: whether bytes are the image of a well-formed table, held to its rules where they lie. No table is
// loaded. What it learns of the tasks and the alarms on its way is handed on. Here and in the files of its parts a loop
// counts in a byte: a usize has 64 bits, and a Cortex-M3 counts it in two registers.
ghost use Rattle.std.specs.Prelude.{◌≡◌, true, false, ◌≤◌, MatchOption};
ghost use Rattle.executive.specs.Lists.{◌and◌, up_to};
ghost use Rattle.executive.specs.Check.{is_well_formed};
ghost use Rattle.image.specs.Image.{image_length, load_of, is_image};
ghost use Rattle.image.specs.Sound.{names_other, KindsKnown};
ghost use Rattle.image.specs.Marks.{Kinds};
ghost use Rattle.image.specs.Seen.{lists_right, Begun, Sees};

use crate::{
    IMAGE, SENT, fields, numbers, sound_entries, sound_pool, sound_post, sound_queue, sound_subs,
};
use executive::{Millis, rules};

// What the check learns where all is right: those of each kind, bit i for the task whose entry is the i-th; the alarms
// that are running.
#[derive(Clone, Copy)]
pub(crate) struct Seen {
    pub(crate) sets: [u16; 10],
    pub(crate) running: u32,
}

// The entries, the alarms and the ready queue keep their rules.
fn begin(b: &[u8; IMAGE]) -> Option<Seen>
    ensures { MatchOption result ((is_image b.now and is_well_formed (load_of b.now)) ≡ false)
        (λ s. Begun b.now true s.sets s.running) }
{
    let count = b[fields::COUNT];
    let time = numbers::long_in(b, fields::CLOCK);
    if !rules::in_bounds(count, b[fields::GRANULE], Millis(time), b[fields::QUEUED]) {
        return None;
    }
    let flags = numbers::word_in(b, fields::FLAGS);
    if !sound_entries::entries_right(b, count, Millis(time), flags) {
        return None;
    }
    if !sound_entries::blank_past(b, count) {
        return None;
    }
    let running = sound_entries::all_alarms(b, Millis(time))?;
    let sets = sound_entries::kind_sets(b, count);
    if !sound_queue::queue_right(b, b[fields::READY], count, sets[1]) {
        return None;
    }
    Some(Seen { sets, running })
}

// The requests, the subprograms, the messages and the mail keep their rules.
fn lists_right(b: &[u8; IMAGE], sets: [u16; 10]) -> bool
    requires { ((load_of b.now).rest.queued ≤ 32) × ((load_of b.now).rest.count ≤ 16)
        × KindsKnown b.now (load_of b.now).rest.count
        × Kinds (load_of b.now).rest.count sets (load_of b.now).tasks
        × (up_to (names_other (load_of b.now).tasks) (load_of b.now).rest.count ≡ true) }
    ensures { result ≡ lists_right (load_of b.now) }
{
    let count = b[fields::COUNT];
    if !sound_pool::pool_right(b, b[fields::QUEUED], count, sets[0], sets[6], sets[7]) {
        return false;
    }
    if !sound_subs::subs_right(b, count, sets[8]) {
        return false;
    }
    if !sound_post::sent_right(b, b[SENT], count, sets[9]) {
        return false;
    }
    sound_post::mail_right(b, count)
}

// What was learned of the bytes, where they are the image of a well-formed table.
pub(crate) fn see(b: &[u8; IMAGE]) -> Option<Seen>
    ensures { MatchOption result ((is_image b.now and is_well_formed (load_of b.now)) ≡ false)
        (λ s. Sees b.now true s.sets s.running) }
{
    let seen = begin(b)?;
    let sets = seen.sets;
    if !lists_right(b, sets) {
        return None;
    }
    Some(seen)
}

// Whether they are, and no more.
pub(crate) fn is_sound(bytes: &[u8]) -> bool
    ensures { result ≡ (is_image bytes.now and is_well_formed (load_of bytes.now)) }
{
    let Some(b) = bytes.as_array::<IMAGE>() else {
        return false;
    };
    let Some(seen) = begin(b) else {
        return false;
    };
    lists_right(b, seen.sets)
}
