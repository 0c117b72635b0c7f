// The mending of a table.
ghost use Rattle.std.specs.Prelude.{◌≡◌, []};
ghost use Rattle.mender.specs.Rounds.{round};
ghost use Rattle.mender.specs.Rebuilding.{rebuilt};
ghost use Rattle.mender.specs.Mending.{answered, notes_at, Mends, answered_by};

use crate::filled::Filled;
use crate::{Mended, Note, lines, notes, passes, rules as own};
use executive::{Table, rules};

fn answer(number: u8, table: Table, l: Filled<Note, 16>) -> Mended
    ensures { result ≡ answered_by number table l }
{
    let list = l.places;
    Mended {
        number,
        table,
        list,
        noted: l.taken,
    }
}

// The table as it is given, with a number, which is the C interface's (docs/CALLS.md), and an empty list.
fn as_given(number: u8, table: Table) -> Mended
    ensures { result ≡ answered number table [] }
{
    answer(number, table, notes::none())
}

// The table after its rounds, of which one is enough, and the rebuilding, with its list.
fn mended(table: Table) -> Mended
    ensures { result ≡ answered 0 (rebuilt (round table)) (notes_at table (rebuilt (round table))) }
{
    let broken = own::own_rules(table);
    let whole = lines::rebuilt(passes::round(table, broken));
    let list = notes::notes_of(table.rest.count, broken, table.tasks, whole.tasks);
    answer(0, whole, list)
}

// Mends a table: 17, and the table as given, where its clock, granule or task count is out of range; else 0, with an
// empty list where the table is well formed.
pub fn mend(table: Table) -> Mended
    ensures { Mends table result }
{
    if !rules::in_bounds(table.rest.count, table.rest.granule, table.rest.clock, 0) {
        return as_given(17, table);
    }
    if table.check() == 0 {
        return as_given(0, table);
    }
    mended(table)
}
