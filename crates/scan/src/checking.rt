// The check of the second engine's table: the first engine's rules of entries and rest, and the arrival numbers.
ghost use Rattle.std.specs.Prelude.{◌≡◌, leb};
ghost use Rattle.executive.specs.Lists.{◌and◌, all_of};
ghost use Rattle.scan.specs.Entries.{most_arrivals};
ghost use Rattle.scan.specs.Sound.{arrival_right, arrivals_right, is_sound, Checked};

use crate::{Entry, Scanned, moves};
use executive::check;

// One entry's number: of a ready task from 1 to the last given, and borne by no other; of any other task 0.
fn arrival_right(x: Entry, all: &[Entry; 16], last: u32) -> bool
    ensures { result ≡ arrival_right last all.now x }
{
    if x.is_ready() {
        let bearers = all.iter().filter(|y| x.arrival == y.arrival).count();
        return 0 < x.arrival && x.arrival <= last && bearers <= 1;
    }
    x.arrival == 0
}

// The numbers of all entries, with the last one given.
fn numbers_right(all: &[Entry; 16], last: u32) -> bool
    ensures { result ≡ (leb last most_arrivals and all_of (arrival_right last all.now) all.now) }
{
    all.iter().all(|x| arrival_right(*x, all, last))
}

impl Scanned {
    // The arrival numbers are in order.
    pub(crate) fn arrivals_right(self) -> bool
        ensures { result ≡ arrivals_right self }
    {
        numbers_right(&self.entries, self.last)
    }

    // The table keeps every rule.
    fn is_sound(self) -> bool
        ensures { result ≡ is_sound self }
    {
        self.arrivals_right() && check::all_but_queue(moves::tasks_in(self.entries), self.rest)
    }

    // The check of a table: 0 if it is well formed, 1 if it is not.
    // A number: it is public, and the answer to an image hands it on.
    pub fn check(self) -> u8
        ensures { Checked self result }
    {
        if self.is_sound() { 0 } else { 1 }
    }
}
