// What is asked of an entry, and how many are ready.
ghost use Rattle.std.specs.Prelude.{◌≡◌, ◌≤◌};
ghost use Rattle.scan.specs.Entries.{is_ready, count_of};

use crate::Entry;
use executive::{places, states};

// The blank entry.
pub(crate) const NO_ENTRY: Entry = Entry {
    task: places::NO_TASK,
    arrival: 0,
};

impl Entry {
    // Its task is ready.
    pub(crate) fn is_ready(&self) -> bool
        ensures { result ≡ is_ready self.now }
    {
        states::is_of(self.task.state, states::READY)
    }
}

// How many of the entries are ready.
pub(crate) fn ready_count(entries: &[Entry; 16]) -> u8
    ensures { (result ≡ count_of is_ready entries.now) × (result ≤ 16) }
{
    entries.iter().filter(|x| x.is_ready()).count() as u8
}
