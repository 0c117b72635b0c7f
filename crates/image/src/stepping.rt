// A step on the lent bytes of an image: checked, decided and done in place. No table is loaded.
ghost use Rattle.std.specs.Prelude.{◌≡◌, true, length};
ghost use Rattle.executive.specs.declared.Table.{Table};
ghost use Rattle.executive.specs.Plans.{caller};
ghost use Rattle.executive.specs.Check.{is_well_formed};
ghost use Rattle.executive.specs.Step.{answer_of, refused, step_of};
ghost use Rattle.image.specs.Image.{image_length, load_of, is_image};
ghost use Rattle.image.specs.EntryPoints.{image_after, Holds};
ghost use Rattle.image.specs.Laid.{Laid};
ghost use Rattle.image.specs.Waking.{Learned};
ghost use Rattle.image.specs.Acting.{Acts};

use crate::deciding::Watched;
use crate::{IMAGE, QUEUE, deciding, doing, fields, sound};
use executive::{Answer, Marks, answers};
use records::TaskNo;

// The active task; 0 when idle.
fn active(b: &[u8; IMAGE]) -> TaskNo
    ensures { (t : Table) → Laid b.now t → result ≡ caller t }
{
    if b[fields::READY] == 0 {
        return TaskNo(0);
    }
    TaskNo(b[QUEUE])
}

// The answer with a number, marks and how far those that entered walked.
fn answer(b: &[u8; IMAGE], number: u8, m: Marks, walked: u8) -> Answer
    ensures { (t : Table) → Laid b.now t → result ≡ answer_of number m walked t }
{
    let active = active(b);
    Answer {
        number,
        z: m.z,
        v: m.v,
        c: m.c,
        active,
        argument: fields::argument(b, active),
        skipped: m.skipped,
        walked,
        sender: m.sender,
        text: m.text,
    }
}

// The answer of a refusal. After 1 active and argument are 0, after the others the kept table's.
fn refusal(b: &[u8; IMAGE], number: u8) -> Answer
    ensures { (t : Table) → Laid b.now t → result ≡ (refused t number).answer }
{
    if number == 1 {
        return answers::no_table();
    }
    let v = answers::has_v(number);
    let m = answers::marked(false, v, false);
    answer(b, number, m, 0)
}

// A step at the image of a well-formed table, with what the check has learned of it: refused, no byte is written;
// accepted, the deed is done in place.
fn step(b: &mut [u8; IMAGE], call: &[u8], w: Watched) -> Answer
    requires { (is_image b.old ≡ true) × (is_well_formed (load_of b.old) ≡ true)
        × Learned w.timed w.flagged w.running (load_of b.old) }
    ensures { (result ≡ (step_of (load_of b.old) call.now).answer)
        × ((b.new ≡ image_after b.old call.now)
        × (result.number ≡ 0 → Holds b.new (step_of (load_of b.old) call.now).table)) }
{
    let c = active(b);
    let d = deciding::decide(b, c, call, w);
    if d.number != 0 {
        return refusal(b, d.number);
    }
    let walked = doing::execute(b, d.deed, w.running);
    answer(b, 0, d.marks, walked)
}

// A step, whatever the bytes are, and its answer. Accepted, the image is rewritten; refused, every byte is kept.
pub fn act(image: &mut [u8], call: &[u8]) -> Answer
    ensures { Acts image.old call.now image.new result }
{
    let Some(b) = image.as_mut_array::<IMAGE>() else {
        return answers::no_table();
    };
    let Some(seen) = sound::see(b) else {
        return answers::no_table();
    };
    let sets = seen.sets;
    let w = Watched {
        timed: sets[2] | sets[3],
        flagged: sets[4] | sets[5],
        running: seen.running,
    };
    step(b, call, w)
}
