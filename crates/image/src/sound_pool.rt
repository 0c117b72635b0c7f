// The check of the pool on the lent bytes: the queued requests, their waiters and those of the runs, the free places.
ghost use Rattle.std.specs.Prelude.{◌≡◌, true, ℕ, ◌+◌, ◌*◌, ◌≤◌, ◌<◌, length, take, is_some, IfSome};
ghost use Rattle.executive.specs.Lists.{up_to, all_of};
ghost use Rattle.executive.specs.Places.{task_at};
ghost use Rattle.executive.specs.States.{await_start, await_end, is_of, is_dormant};
ghost use Rattle.executive.specs.Flags.{is_set};
ghost use Rattle.executive.specs.Check.{request_right, asked_right};
ghost use Rattle.image.specs.Image.{image_length, load_of};
ghost use Rattle.image.specs.Sound.{tasks_in, pool_in, naming, namings, names_in, names_other};
ghost use Rattle.image.specs.Marks.{passed, Marked};

use crate::{IMAGE, LEVELS, POOL, changes, fields, loading, zeros};
use executive::rules;

// Whether task k is dormant; so is what a number reads that names no task.
pub(crate) fn is_idle(b: &[u8; IMAGE], k: u8) -> bool
    ensures { result ≡ is_dormant (task_at (tasks_in b.now) k).state }
{
    let i = fields::place(k);
    if 15 < i {
        return true;
    }
    0 == b[i * 26 + 1]
}

// A set of tasks with task k; with bit 0 where it has that task already. A number that names no task changes nothing.
fn with(set: u32, k: u8, count: u8) -> u32
    requires { count ≤ 16 }
    ensures { result ≡ naming count set k }
{
    if k == 0 {
        return set;
    }
    if count < k {
        return set;
    }
    let bit = changes::bit_of(k as usize);
    if set & bit != 0 {
        return set | 1;
    }
    set | bit
}

// A set with those whose numbers stand from a place on, each so many places after the one before.
pub(crate) fn named(b: &[u8; IMAGE], set: u32, at: usize, step: usize, n: u8, count: u8) -> u32
    requires { (count ≤ 16) × ((i : ℕ) → i < n → at + i * step < image_length) }
    ensures { result ≡ namings count set (names_in b.now step n at) }
{
    let mut all = set;
    for i in 0..n {
        all = with(all, b[at + (i as usize) * step], count);
    }
    all
}

// Whom the requests name as waiters for a start, and, with those of the runs, for an end.
#[derive(Clone, Copy)]
struct Waiters {
    starts: u32,
    ends: u32,
}

// Looks at the queued requests: whom they name, where they keep the rules on one request and name busy tasks only. Idle
// has bit k where task k is dormant, and bit 0, and ends those whom the runs name. Most requests name no waiter: four
// bytes from the argument on tell that at once.
fn requests_right(b: &[u8; IMAGE], queued: u8, count: u8, idle: u32, ends: u32) -> Option<Waiters>
    requires { (queued ≤ 32) × (count ≤ 16)
        × ((k : ℕ) → k ≤ count → is_set idle k ≡ is_dormant (task_at (tasks_in b.now) k).state) }
    ensures right { is_some result ≡ all_of (request_right (tasks_in b.now) count)
        (take queued (pool_in b.now)) }
    ensures waiters { IfSome result (λ w. (w.starts ≡ namings count 0 (names_in b.now 6 queued 708))
        × (w.ends ≡ namings count ends (names_in b.now 6 queued 709))) }
{
    let mut starts: u32 = 0;
    let mut all_ends = ends;
    for i in 0..queued {
        let at = POOL + (i as usize) * 6;
        let target = b[at];
        if count < target {
            return None;
        }
        if (idle >> (target as u32)) & 1 == 1 {
            return None;
        }
        if 15 < b[at + 1] {
            return None;
        }
        if 65535 < zeros::quad(b, at + 2) {
            let q = loading::request_in(b, at);
            if !rules::request_fits(q, count) {
                return None;
            }
            starts = with(starts, b[at + 4], count);
            all_ends = with(all_ends, b[at + 5], count);
        }
    }
    Some(Waiters {
        starts,
        ends: all_ends,
    })
}

// The requests, their waiters and those of the runs; the pool's free places are last and zero. The sets are of those
// who are dormant, who wait for a start and who wait for an end, bit i for the task whose entry is the i-th; no run
// names itself.
pub(crate) fn pool_right(
    b: &[u8; IMAGE],
    queued: u8,
    count: u8,
    idle: u16,
    starts: u16,
    ends: u16,
) -> bool
    requires { (queued ≤ 32) × (count ≤ 16) × Marked count idle (passed is_dormant (tasks_in b.now))
        × Marked count starts (passed (is_of await_start) (tasks_in b.now))
        × Marked count ends (passed (is_of await_end) (tasks_in b.now))
        × (up_to (names_other (tasks_in b.now)) count ≡ true) }
    ensures { result ≡ asked_right (load_of b.now).tasks count queued
        (load_of b.now).rest.pool }
{
    let runs = named(b, 0, 25, 26, 16, count);
    let Some(w) = requests_right(b, queued, count, ((idle as u32) << 1) | 1, runs) else {
        return false;
    };
    if w.starts != (starts as u32) << 1 {
        return false;
    }
    if w.ends != (ends as u32) << 1 {
        return false;
    }
    zeros::are_zero(b, POOL + (queued as usize) * 6, LEVELS)
}
