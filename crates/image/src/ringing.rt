// The alarms that are due, looked for in the lent bytes of an image, and the flags once they have rung.
ghost use Rattle.std.specs.Prelude.{◌≡◌, false, eqb, ◌<◌, ◌≤◌, length, get_or, drop};
ghost use Rattle.executive.specs.declared.Table.{Table};
ghost use Rattle.executive.specs.Lists.{next_of, each};
ghost use Rattle.executive.specs.Places.{never};
ghost use Rattle.executive.specs.Clock.{is_due};
ghost use Rattle.executive.specs.Decisions.{rung_in};
ghost use Rattle.image.specs.Image.{image_length};
ghost use Rattle.image.specs.Laid.{Laid};
ghost use Rattle.image.specs.Marks.{Running};

use crate::{ALARMS, IMAGE, changes, members, numbers};

// Whether the time of an alarm, which is running, has come.
fn is_due(b: &[u8; IMAGE], i: usize, time: u64) -> bool
    requires { i < 32 }
    ensures { (t : Table) → Laid b.now t → (eqb (get_or t.rest.alarms i never).0 0 ≡ false)
        → result ≡ is_due time (get_or t.rest.alarms i never) }
{
    numbers::long_in(b, ALARMS + i * 8) <= time
}

// The place of the next alarm that is due, of those that are running, from a place on; 32 where there is none.
// A number past the last, as `next_of` counts and `Change::Clock` is told it.
pub(crate) fn next_due(b: &[u8; IMAGE], running: u32, from: u8, time: u64) -> u8
    requires { from ≤ 32 }
    ensures lower_bound { (from ≤ result) × (result ≤ 32) }
    ensures value { (t : Table) → Laid b.now t → Running running t.rest.alarms
        → result ≡ next_of (is_due time) from (drop from t.rest.alarms) }
{
    // A while: it steps by the next set bit, not by one.
    let mut i = members::next_in(running, from);
    while i < 32 {
        if is_due(b, i as usize, time) {
            return i;
        }
        i = members::next_in(running, i + 1);
    }
    i
}

// The flags once the due alarms have rung, from the first of them on.
pub(crate) fn rings(b: &[u8; IMAGE], running: u32, flags: u32, first: u8, time: u64) -> u32
    requires { first ≤ 32 }
    ensures { (t : Table) → Laid b.now t → Running running t.rest.alarms
        → first ≡ next_of (is_due time) 0 t.rest.alarms
        → result ≡ each (rung_in time t.rest.alarms) 32 0 flags }
{
    let mut more = flags;
    // A while: it steps by the next alarm that is due, not by one.
    let mut i = first;
    while i < 32 {
        more |= changes::bit_of(i as usize);
        i = next_due(b, running, i + 1, time);
    }
    more
}
