// The pool of queued start requests, in the order of asking.
ghost use Rattle.std.specs.Prelude.{◌≡◌, ◌<◌, ◌∷◌, [], ◌++◌, length};
ghost use Rattle.executive.specs.Pool.{PoolInOrder, requests, found_at, place_of, removed, with_requests};

use crate::{Request, Rest, lines};
use records::TaskNo;

// The blank request.
pub const NO_REQUEST: Request = Request {
    target: TaskNo(0),
    priority: 0,
    argument: 0,
    start_waiter: TaskNo(0),
    end_waiter: TaskNo(0),
};

// The place of the earliest request for a task.
pub(crate) fn first_for(requests: &[Request], k: TaskNo) -> Option<usize>
    ensures { result ≡ found_at (place_of k.0 requests.now) (length requests.now) }
{
    requests.iter().position(|q| k == q.target)
}

impl Rest {
    // The rest with a request taken from the pool.
    pub(crate) fn without(mut self, i: usize) -> Rest
        requires { PoolInOrder self × (i < self.queued) }
        ensures { result ≡ with_requests (removed i (requests self)) self }
    {
        self.pool = lines::closed_at(self.pool, NO_REQUEST, i);
        self.queued -= 1;
        self
    }

    // The rest with one more request queued.
    pub(crate) fn with_request(mut self, q: Request) -> Rest
        requires { PoolInOrder self × (self.queued < 32) }
        ensures { result ≡ with_requests (requests self ++ (q ∷ [])) self }
    {
        self.pool[self.queued as usize] = q;
        self.queued += 1;
        self
    }
}
