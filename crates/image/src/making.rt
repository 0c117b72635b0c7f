// A fresh table made in the lent bytes of its image, from a configuration: all zero, then the tasks dormant, then those
// that are marked start.
ghost use Rattle.std.specs.Prelude.{◌≡◌, [], ℕ, ◌<◌, ◌≤◌, length};
ghost use Rattle.executive.specs.declared.Table.{Table};
ghost use Rattle.executive.specs.Lists.{pad};
ghost use Rattle.executive.specs.Places.{no_task};
ghost use Rattle.executive.specs.Queue.{count, Desc};
ghost use Rattle.executive.specs.Table.{InFlight, view, with_rest, begin, enter_all_in_flight, lit_in_flight};
ghost use Rattle.executive.specs.Configuration.{blank_rest, zero_table, sleepers, marked_start, starters, fresh_table};
ghost use Rattle.image.specs.Image.{image_length};
ghost use Rattle.image.specs.Laid.{Laid, with_tasks};

use crate::{IMAGE, entries, fields, moves, numbers};
use executive::{Millis, configuration, pool};
use records::TaskNo;
use records::reading::byte_at;

// The table of nobody: every byte is zero.
fn clear(b: &mut [u8; IMAGE])
    ensures { Laid b.new zero_table }
{
    b.fill(0);
}

// How many tasks there are, and the granule.
fn set_sizes(b: &mut [u8; IMAGE], n: u8, granule: u8)
    ensures { Laid b.old zero_table
        → Laid b.new (with_rest (blank_rest n granule) zero_table) }
{
    numbers::put_byte(b, fields::COUNT, n);
    numbers::put_byte(b, fields::GRANULE, granule);
}

// The own priorities of the tasks 1 to n, all of whom are dormant.
fn set_own(b: &mut [u8; IMAGE], config: &[u8], n: u8)
    requires { n ≤ 16 }
    ensures { (t : Table) → Laid b.old t → t.tasks ≡ pad 16 no_task []
        → Laid b.new (with_tasks (pad 16 no_task (sleepers config.now n 1)) t) }
{
    for i in 0..n {
        let own = byte_at(config, (i as usize) * 3 + 3);
        numbers::put_byte(b, (i as usize) * 26, own);
    }
}

// Task k, which is not ready yet, starts if it is marked: at its own priority, with argument 0 and scheduled start 0.
fn start_at(b: &mut [u8; IMAGE], config: &[u8], k: TaskNo)
    requires { 0 < k.0 }
    ensures { (t : Table) → (n : ℕ) → Laid b.old t → InFlight 1 (record { table = t; walked = n })
        → Desc (view t) → count k.0 (view t) ≡ 0
        → Laid b.new (lit_in_flight (enter_all_in_flight (marked_start config.now k.0)
        (record { table = t; walked = n }))).table
        × Desc (view (enter_all_in_flight (marked_start config.now k.0)
        (record { table = t; walked = n })).table) }
{
    let at = (k.0 as usize) * 3;
    if byte_at(config, at + 1) != 1 {
        return;
    }
    let own = byte_at(config, at);
    let mut q = pool::NO_REQUEST;
    q.target = k;
    q.priority = own;
    entries::beginning(b, k, q, Millis(0));
    moves::line_up(b, k);
}

// The marked tasks of 1 to n start, in ascending number, where nobody is ready.
fn start_marked(b: &mut [u8; IMAGE], config: &[u8], n: u8)
    requires { n ≤ 16 }
    ensures { (t : Table) → Laid b.old t → InFlight n (begin t) → t.ready ≡ 0
        → Laid b.new (lit_in_flight (enter_all_in_flight (starters config.now n 1)
        (begin t))).table }
{
    for k in 0..n {
        start_at(b, config, TaskNo(k + 1));
    }
}

// The image of the table that a configuration makes.
pub(crate) fn make(b: &mut [u8; IMAGE], config: &[u8])
    ensures { Laid b.new (fresh_table config.now) }
{
    let n = configuration::tasks_in(config);
    let granule = byte_at(config, 1);
    clear(b);
    set_sizes(b, n, granule);
    set_own(b, config, n);
    start_marked(b, config, n);
}
