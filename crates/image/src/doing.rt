// A deed done in the lent bytes of an image: the caller leaves, the rest changes, tasks enter one after the other. It
// decides nothing.
ghost use Rattle.std.specs.Prelude.{◌≡◌, length};
ghost use Rattle.executive.specs.declared.Table.{Table};
ghost use Rattle.executive.specs.Queue.{Desc};
ghost use Rattle.executive.specs.States.{is_ready};
ghost use Rattle.executive.specs.WellFormed.{Line};
ghost use Rattle.executive.specs.Table.{ArraysInOrder, FindsRoom, InFlight, line, view, levels_of, relit, depart, begin, enter_all_in_flight, lit_in_flight, apply_in_flight};
ghost use Rattle.executive.specs.Decisions.{named, out_for, joins_for, meant, Doable};
ghost use Rattle.image.specs.Image.{image_length};
ghost use Rattle.image.specs.Laid.{Laid};
ghost use Rattle.image.specs.Marks.{Running};

use crate::{IMAGE, changes, fields, moves, numbers};
use executive::decisions::{Deed, Entrants, Leave};
use executive::{Mail, Millis, Request};
use records::{TaskNo, Text};

const NO_MAIL: Mail = Mail {
    sender: TaskNo(0),
    text: Text(0),
};

// The caller leaves, if it is to.
fn leave(b: &mut [u8; IMAGE], how: Leave)
    ensures { (t : Table) → Laid b.old t → ArraysInOrder t → Line is_ready t.tasks (line t)
        → t.levels ≡ levels_of (view t)
        → Laid b.new (relit (depart (out_for how) t)) }
{
    match how {
        Leave::Stays => {}
        _ => moves::depart(b, how),
    }
}

// Those who are listed enter, in order; how many they pass over, all together.
fn enter_all(b: &mut [u8; IMAGE], list: Entrants, q: Request, time: Millis) -> u8
    ensures { (t : Table) → Laid b.old t → InFlight list.count (begin t)
        → FindsRoom (joins_for q time (named list)) t → Desc (view t)
        → Laid b.new (lit_in_flight (enter_all_in_flight (joins_for q time (named list)) (begin t))).table
        × (result ≡ (lit_in_flight (enter_all_in_flight (joins_for q time (named list)) (begin t))).walked) }
{
    if 16 < list.count {
        return 0;
    }
    let mut walked: u8 = 0;
    // By index: over the slice of those who enter, a step in which sixteen enter takes 96 instructions more on a
    // Cortex-M3.
    for i in 0..list.count {
        let x = list.places[i as usize];
        walked += moves::enter(b, x.who, x.how, q, time);
    }
    walked
}

// What is to be done is done; how many ready tasks those who entered were put behind.
pub(crate) fn execute(b: &mut [u8; IMAGE], d: Deed, running: u32) -> u8
    ensures { (t : Table) → Laid b.old t → Running running t.rest.alarms → Doable d t
        → Laid b.new (apply_in_flight (meant d t) t).table × (result ≡ (apply_in_flight (meant d t) t).walked) }
{
    let time = Millis(numbers::long_in(b, fields::CLOCK));
    leave(b, d.leave);
    changes::change(b, d.change, d.request, running);
    fields::set_mail(b, d.empties, NO_MAIL);
    enter_all(b, d.entrants, d.request, time)
}
