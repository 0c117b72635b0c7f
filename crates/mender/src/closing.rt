// Requests and messages that close up: of all places those that stay, first to last.
ghost use Rattle.std.specs.Prelude.{◌≡◌};
ghost use Rattle.executive.specs.Places.{no_request};
ghost use Rattle.executive.specs.Letters.{all_that};
ghost use Rattle.executive.specs.Messages.{no_message};
ghost use Rattle.executive.specs.Check.{message_in_range};
ghost use Rattle.mender.specs.Filled.{filled_of};
ghost use Rattle.mender.specs.Passes.{keeps_request};

use crate::entries;
use crate::filled::{Filled, closed_up};
use executive::{Message, Request, Task, messages, pool, rules};

// A request in range, for a busy task.
fn keeps_request(tasks: [Task; 16], count: u8, q: Request) -> bool
    ensures { result ≡ keeps_request count tasks q }
{
    q.priority <= 15 && entries::is_busy(tasks, count, q.target)
}

pub(crate) fn kept_requests(
    tasks: [Task; 16],
    count: u8,
    given: [Request; 32],
) -> Filled<Request, 32>
    ensures { result ≡ filled_of 32 no_request (all_that (keeps_request count tasks) given) }
{
    closed_up(given, pool::NO_REQUEST, |q| {
        keeps_request(tasks, count, q)
    })
}

pub(crate) fn kept_messages(count: u8, given: [Message; 32]) -> Filled<Message, 32>
    ensures { result ≡ filled_of 32 no_message (all_that (message_in_range count) given) }
{
    closed_up(given, messages::NO_MESSAGE, |m| {
        rules::message_in_range(m, count)
    })
}
