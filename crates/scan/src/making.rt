// The fresh table: the marked tasks are ready, with arrival numbers 1, 2 and on in ascending task number.
ghost use Rattle.std.specs.Prelude.{◌≡◌};
ghost use Rattle.scan.specs.Making.{numbered_from, Makes};

use crate::tallies::NO_ENTRY;
use crate::{Entry, Made, Scanned, tallies};
use executive::{Task, configuration, states};

// The ready tasks are numbered from 1 on in their order; all others bear 0.
fn numbered(tasks: [Task; 16]) -> [Entry; 16]
    ensures { result ≡ numbered_from 0 tasks }
{
    let mut out = [NO_ENTRY; 16];
    let mut last: u32 = 0;
    for (i, task) in tasks.iter().enumerate() {
        let ready = states::is_of(task.state, states::READY);
        last += u32::from(ready);
        out[i] = Entry {
            task: *task,
            arrival: if ready { last } else { 0 },
        };
    }
    out
}

// The table of a configuration's bytes: number 0 and the table, or number 2 and a table of zeros.
pub fn fresh(bytes: &[u8]) -> Made
    ensures { Makes bytes.now result }
{
    let made = configuration::fresh(bytes);
    let entries = numbered(made.table.tasks);
    Made {
        number: made.answer.number,
        table: Scanned {
            entries,
            last: u32::from(tallies::ready_count(&entries)),
            rest: made.table.rest,
        },
    }
}
