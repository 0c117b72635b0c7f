// The listing of an input, piece by piece: from its start on, into buffers that are lent.
ghost use Rattle.std.specs.Prelude.{◌≡◌, ◌≤◌, length, drop, Some};
ghost use Rattle.bench.specs.declared.Next.TheVariants.{Step};
ghost use Rattle.text.specs.Glyphs.{Adds};
ghost use Rattle.bench.specs.Lines.{header_of};
ghost use Rattle.bench.specs.Pieces.{first_of, Starts, with_next, Fills, FillsFrom, Promise};

use crate::{Filled, Next, Progress, lines, steps};
use executive::{Table, configuration};
use image::{loading, stepping, storing};
use records::TaskNo;

// The longest input that is read, in bytes.
pub const MOST_BYTES: usize = 65536;

// What is told first, of an input of that length whose configuration gave that number and that active task.
fn first(length: usize, number: u8, active: TaskNo) -> Next
    ensures { result ≡ first_of length number active }
{
    if MOST_BYTES < length {
        // A number: the line of the listing has it, and 12 is no `Refusal`.
        return Next::Stop(12);
    }
    if number == 0 {
        return Next::Header(active);
    }
    Next::Stop(2)
}

// The start of an input's listing: the configuration is read.
pub fn start(input: &[u8]) -> Progress
    ensures { Starts input.now result }
{
    let at = configuration::length_in(input);
    let made = configuration::fresh(&input[..at]);
    Progress {
        next: Some(first(input.len(), made.answer.number, made.answer.active)),
        at,
        number: 1,
        table: made.table,
    }
}

// The bytes that are left from a place on.
fn left_at(input: &[u8], at: usize) -> &[u8]
    ensures { result.now ≡ drop at input.now }
{
    &input[at.min(input.len())..]
}

// The header of a table, in which that task is active.
fn header(table: Table, active: TaskNo, out: &mut [u8]) -> usize
    requires { 64 ≤ length out.old }
    ensures { Adds out.old 0 out.new result (header_of table active) }
{
    lines::header_line(out, 0, table.rest.granule, table.rest.count, active)
}

// The lines of the steps from where a listing stands, into a buffer that is used up to a place. The steps are taken on
// the table's image, where nothing is copied from one to the next.
fn go_on(input: &[u8], mut run: Progress, out: &mut [u8], from: usize) -> Filled
    requires { from ≤ length out.old }
    ensures { FillsFrom from input.now (with_next (Some Step) run) out.old out.new result }
{
    let mut used = from;
    let mut image = storing::image_of(run.table);
    // A while: a turn takes as many bytes as its line and its step have.
    while 64 <= out.len() - used {
        let left = left_at(input, run.at);
        let Some(n) = steps::whole_of(left) else {
            used = steps::last_line(left, out, used);
            run.next = None;
            run.table = loading::load(&image);
            return Filled {
                used,
                more: false,
                run,
            };
        };
        let answer = stepping::act(&mut image, &left[..n]);
        used = lines::step_line(out, used, run.number, left[0], answer);
        run.number = run.number.saturating_add(1);
        run.at += n;
    }
    run.next = Some(Next::Step);
    run.table = loading::load(&image);
    Filled {
        used,
        more: true,
        run,
    }
}

// Fills a buffer with the whole lines that go into it, from where a listing stands. Its other bytes stay.
pub fn fill(input: &[u8], run: Progress, out: &mut [u8]) -> Filled
    ensures { Fills input.now run out.old out.new result }
{
    let Some(next) = run.next else {
        return Filled {
            used: 0,
            more: false,
            run,
        };
    };
    if out.len() < 64 {
        return Filled {
            used: 0,
            more: true,
            run,
        };
    }
    match next {
        Next::Header(active) => {
            let used = header(run.table, active, out);
            go_on(input, run, out, used)
        }
        Next::Step => go_on(input, run, out, 0),
        Next::Stop(n) => Filled {
            used: lines::stop_line(out, 0, n),
            more: false,
            run: Progress { next: None, ..run },
        },
    }
}

// The pieces, from the start on, are the listing.
fn promised()
    ensures { Promise }
{}
