// The deed of a kind at which nobody leaves.
ghost use Rattle.std.specs.Prelude.{◌≡◌, List};
ghost use Rattle.executive.specs.declared.decisions.Entrant.{Entrant};
ghost use Rattle.executive.specs.declared.decisions.Leave.TheVariants.{Stays};
ghost use Rattle.executive.specs.Places.{no_request};
ghost use Rattle.executive.specs.Decisions.{listed, deed};

use executive::decisions::{Change, Deed, Entrants, Leave};
use executive::pool;
use records::TaskNo;

// Nobody leaves; those who are listed enter, and the rest changes.
pub(crate) fn letting_in(entrants: Entrants, change: Change) -> Deed
    ensures { (xs : List Entrant) → entrants ≡ listed xs → result ≡ deed Stays xs no_request change }
{
    Deed {
        leave: Leave::Stays,
        entrants,
        request: pool::NO_REQUEST,
        change,
        empties: TaskNo(0),
    }
}
