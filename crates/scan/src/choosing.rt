// The choice, by a scan of all entries: highest priority, then earliest arrival number (02).
ghost use Rattle.std.specs.Prelude.{◌≡◌, ◌<◌};
ghost use Rattle.scan.specs.Choosing.{better_of, chosen, chosen_no};

use crate::{Best, Entry, Scanned};
use records::TaskNo;

// One entry against the best so far.
fn better(best: Best, at: usize, x: Entry) -> Best
    ensures { result ≡ better_of best at x }
{
    let e = x.task;
    let new = Best {
        found: true,
        at,
        priority: e.priority,
        arrival: x.arrival,
    };
    if !x.is_ready() {
        return best;
    }
    if !best.found {
        return new;
    }
    if best.priority < e.priority {
        return new;
    }
    if e.priority < best.priority {
        return best;
    }
    if x.arrival < best.arrival {
        return new;
    }
    best
}

// The first of the ready entries with highest priority, if one is ready: a scan of the lent entries, however many.
pub fn choose(entries: &[Entry]) -> Best
    ensures { result ≡ chosen entries.now }
{
    let mut best = Best {
        found: false,
        at: 0,
        priority: 0,
        arrival: 0,
    };
    for (i, x) in entries.iter().enumerate() {
        best = better(best, i, *x);
    }
    best
}

// The same of sixteen entries, which are lent to it.
pub fn choose_of(entries: [Entry; 16]) -> Best
    ensures { (result ≡ chosen entries) × (result.at < 16) }
{
    choose(&entries)
}

impl Scanned {
    // The active task; 0 when idle.
    pub fn active(self) -> TaskNo
        ensures { result ≡ chosen_no self.entries }
    {
        let best = choose_of(self.entries);
        if best.found {
            return TaskNo(best.at as u8 + 1);
        }
        TaskNo(0)
    }
}
