// A task's state: its kind, its time, its mask and the number that it waits for. Only these match each state; all else
// asks them.
ghost use Rattle.std.specs.Prelude.{◌≡◌};
ghost use Rattle.executive.specs.States.{KindIs, TimeIs, MaskIs, AwaitedIs, is_as, is_of, is_dormant, is_paused, has_time, has_mask, wait_mode};

use crate::{Millis, Mode, State};

// The kinds of state. Numbers and no enum: `KindIs` and the check are stated of them, and a table's image holds them.
const DORMANT: u8 = 0;

pub const READY: u8 = 1;

const PAUSED: u8 = 2;

pub(crate) const DUE: u8 = 3;

const AWAIT_ANY: u8 = 4;

const AWAIT_ALL: u8 = 5;

pub const AWAIT_START: u8 = 6;

pub const AWAIT_END: u8 = 7;

pub const AWAIT_SUB: u8 = 8;

pub const AWAIT_MESSAGE: u8 = 9;

// The kind of a state.
pub fn kind_of(s: State) -> u8
    ensures { KindIs s result }
{
    match s {
        State::Dormant => DORMANT,
        State::Ready => READY,
        State::Paused(_) => PAUSED,
        State::Due(_) => DUE,
        State::Flags(Mode::Any, _) => AWAIT_ANY,
        State::Flags(Mode::All, _) => AWAIT_ALL,
        State::AwaitStart => AWAIT_START,
        State::AwaitEnd => AWAIT_END,
        State::AwaitSub(_) => AWAIT_SUB,
        State::AwaitMessage(_) => AWAIT_MESSAGE,
    }
}

// The time until which a task in this state waits; 0 where it waits for none.
// It is public, and `TimeIs` says 0 of the others.
pub fn time_of(s: State) -> Millis
    ensures { TimeIs s result }
{
    match s {
        State::Paused(at) | State::Due(at) => at,
        _ => Millis(0),
    }
}

// The flags for which a task in this state waits; 0 where it waits for none.
// It is public, and `MaskIs` says 0 of the others.
pub fn mask_of(s: State) -> u32
    ensures { MaskIs s result }
{
    match s {
        State::Flags(_, mask) => mask,
        _ => 0,
    }
}

// The number of what a task in this state waits for: a subprogram's, or the sender's of a message, 0 for any; 0 where
// it waits for neither.
// It is public, and `AwaitedIs` says 0 of the others.
pub fn awaited_of(s: State) -> u8
    ensures { AwaitedIs s result }
{
    match s {
        State::AwaitSub(m) => m.0,
        State::AwaitMessage(k) => k.0,
        _ => 0,
    }
}

// Whether a state is of a kind.
pub fn is_of(s: State, kind: u8) -> bool
    ensures { result ≡ is_of kind s }
{
    kind == kind_of(s)
}

// Whether a task is dormant.
pub fn is_dormant(s: State) -> bool
    ensures { result ≡ is_dormant s }
{
    is_of(s, DORMANT)
}

// Whether a task is paused; one that is due to restart is not.
pub(crate) fn is_paused(s: State) -> bool
    ensures { result ≡ is_paused s }
{
    is_of(s, PAUSED)
}

// Whether a task waits for a time: a paused or a due one.
pub(crate) fn has_time(s: State) -> bool
    ensures { result ≡ has_time s }
{
    is_paused(s) || is_of(s, DUE)
}

// Whether a state is of a kind and waits for a number.
pub fn is_as(s: State, kind: u8, number: u8) -> bool
    ensures { result ≡ is_as kind number s }
{
    is_of(s, kind) && number == awaited_of(s)
}

// Whether a task waits for flags.
pub(crate) fn has_mask(s: State) -> bool
    ensures { result ≡ has_mask s }
{
    is_of(s, AWAIT_ANY) || is_of(s, AWAIT_ALL)
}

// Whether it waits for any or for all of them.
pub(crate) fn wait_mode(s: State) -> Mode
    ensures { result ≡ wait_mode s }
{
    if is_of(s, AWAIT_ALL) {
        return Mode::All;
    }
    Mode::Any
}
