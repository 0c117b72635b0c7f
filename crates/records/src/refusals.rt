// The number of a refusal.
ghost use Rattle.std.specs.Prelude.{◌≡◌};
ghost use Rattle.records.specs.Refusals.{refusal_number};

use crate::Refusal;

impl From<Refusal> for u8 {
    ghost from_gives = { λ why n. n ≡ refusal_number why };

    fn from(why: Refusal) -> u8 {
        match why {
            Refusal::NoTable => 1,
            Refusal::NoConfiguration => 2,
            Refusal::WrongLength => 3,
            Refusal::UnknownKind => 4,
            Refusal::NobodyActive => 5,
            Refusal::OutOfRange => 6,
            Refusal::NamesCaller => 7,
            Refusal::QueueFull => 8,
            Refusal::AlarmRunning => 9,
            Refusal::EndOfTime => 10,
            Refusal::HeldAlready => 13,
            Refusal::NotHeld => 14,
            Refusal::StillHeld => 15,
            Refusal::MessagesFull => 16,
            Refusal::Unmendable => 17,
            Refusal::OutsideImage => 18,
            Refusal::NotListed => 19,
            Refusal::BufferShort => 20,
            Refusal::ReadOtherwise => 21,
        }
    }
}
