// The answer as text: it is put together in a buffer of its own, and handed out whole or not at all.
ghost use Rattle.std.specs.Prelude.{◌≡◌, cond, ◌∷◌, [], ◌+◌, ◌%◌, ◌≤◌, eqb, length};
ghost use Rattle.text.specs.Glyphs.{Adds, decimal_of};
ghost use Rattle.why.specs.Texts.{worded_of, said_of, bits_of, mode_words, message_words, cause_text, step_line, step_lines, task_numbers, ring_line, text_of, Tells};

use crate::{Cause, Reasons, Step};
use executive::{Millis, Mode};
use records::TaskNo;
use text::glyphs;

// A number, of up to 20 digits.
fn number(out: &mut [u8], at: usize, n: u64) -> usize
    requires { at + 20 ≤ length out.old }
    ensures { Adds out.old at out.new result (decimal_of n) × (result ≤ at + 20) }
{
    glyphs::decimal(out, at, n)
}

// Words, of up to 32 bytes, and a number.
fn worded(out: &mut [u8], at: usize, before: &[u8], n: u64) -> usize
    requires { (at + 52 ≤ length out.old) × (length before.now ≤ 32) }
    ensures { Adds out.old at out.new result (worded_of before.now n)
        × (result ≤ at + 52) }
{
    let a = glyphs::text(out, at, before);
    number(out, a, n)
}

// Words, a number, words.
fn said(out: &mut [u8], at: usize, before: &[u8], n: u64, after: &[u8]) -> usize
    requires { (at + 84 ≤ length out.old) × (length before.now ≤ 32) × (length after.now ≤ 32) }
    ensures { Adds out.old at out.new result
        (said_of before.now n after.now) × (result ≤ at + 84) }
{
    let a = worded(out, at, before, n);
    glyphs::text(out, a, after)
}

// The number of a bit, a blank before it, where the bit is set.
fn bit(out: &mut [u8], at: usize, left: u32, n: u8) -> usize
    requires { at + 52 ≤ length out.old }
    ensures { Adds out.old at out.new result (cond (eqb (left % 2) 1) (32 ∷ decimal_of n) [])
        × (result ≤ at + 52) }
{
    if left % 2 == 1 {
        return worded(out, at, b" ", n as u64);
    }
    at
}

// The numbers of the bits of a word.
fn bits(out: &mut [u8], at: usize, x: u32) -> usize
    requires { at + 1664 ≤ length out.old }
    ensures { Adds out.old at out.new result (bits_of x 32) × (result ≤ at + 1664) }
{
    let mut place = at;
    let mut left = x;
    for n in 0..32 {
        place = bit(out, place, left, n);
        left /= 2;
    }
    place
}

// That a task waits for any or for all of its flags.
fn mode_words(out: &mut [u8], at: usize, mode: Mode) -> usize
    requires { at + 64 ≤ length out.old }
    ensures { Adds out.old at out.new result (mode_words mode) × (result ≤ at + 64) }
{
    match mode {
        Mode::Any => glyphs::text(out, at, b" waits for any of its flags, missing"),
        Mode::All => glyphs::text(out, at, b" waits for all of its flags, missing"),
    }
}

// That a task waits for a message, from one task or from any.
fn message_words(out: &mut [u8], at: usize, s: TaskNo) -> usize
    requires { at + 64 ≤ length out.old }
    ensures { Adds out.old at out.new result (message_words s) × (result ≤ at + 64) }
{
    if s.0 == 0 {
        return glyphs::text(out, at, b" waits for a message from any task");
    }
    worded(out, at, b" waits for a message from task ", s.0 as u64)
}

// Why a task is not running.
fn cause_text(out: &mut [u8], at: usize, cause: Cause) -> usize
    requires { at + 1728 ≤ length out.old }
    ensures { Adds out.old at out.new result (cause_text cause) × (result ≤ at + 1728) }
{
    match cause {
        Cause::Dormant => glyphs::text(out, at, b" is dormant"),
        Cause::Active => glyphs::text(out, at, b" is active"),
        Cause::Ready(n) => worded(out, at, b" is ready, behind ", n as u64),
        Cause::Paused(time) => said(out, at, b" is paused until ", time.0, b" ms"),
        Cause::Due(time) => said(out, at, b" is due to restart at ", time.0, b" ms"),
        Cause::Flags(mode, missing) => {
            let a = mode_words(out, at, mode);
            bits(out, a, missing)
        }
        Cause::Start(p, j) => {
            let a = said(
                out,
                at,
                b" waits for request ",
                p as u64,
                b" to begin, on task ",
            );
            number(out, a, j.0 as u64)
        }
        Cause::EndOfRequest(p, j) => {
            let a = said(
                out,
                at,
                b" waits for the end of request ",
                p as u64,
                b"'s run, on task ",
            );
            number(out, a, j.0 as u64)
        }
        Cause::EndOfRun(j) => said(
            out,
            at,
            b" waits for the end of task ",
            j.0 as u64,
            b"'s run",
        ),
        Cause::Subprogram(m, j) => {
            let a = said(
                out,
                at,
                b" waits for subprogram ",
                m.0 as u64,
                b", held by task ",
            );
            number(out, a, j.0 as u64)
        }
        Cause::Message(s) => message_words(out, at, s),
    }
}

// The line of a step.
fn step_line(out: &mut [u8], at: usize, step: Step) -> usize
    requires { at + 1792 ≤ length out.old }
    ensures { Adds out.old at out.new result (step_line step) × (result ≤ at + 1792) }
{
    let a = worded(out, at, b"task ", step.task.0 as u64);
    let b = cause_text(out, a, step.cause);
    glyphs::put(out, b, 10)
}

// The lines of some steps.
fn step_lines(out: &mut [u8], at: usize, steps: &[Step]) -> usize
    requires { (at + 28672 ≤ length out.old) × (length steps.now ≤ 16) }
    ensures { Adds out.old at out.new result (step_lines steps.now)
        × (result ≤ at + 28672) }
{
    let mut place = at;
    for s in steps {
        place = step_line(out, place, *s);
    }
    place
}

// The tasks of some steps, a blank before each.
fn task_numbers(out: &mut [u8], at: usize, steps: &[Step]) -> usize
    requires { (at + 832 ≤ length out.old) × (length steps.now ≤ 16) }
    ensures { Adds out.old at out.new result (task_numbers steps.now)
        × (result ≤ at + 832) }
{
    let mut place = at;
    for s in steps {
        place = worded(out, place, b" ", s.task.0 as u64);
    }
    place
}

// The line of the ring; none where there is no ring.
fn ring_line(out: &mut [u8], at: usize, ring: &[Step]) -> usize
    requires { (at + 896 ≤ length out.old) × (length ring.now ≤ 16) }
    ensures { Adds out.old at out.new result (ring_line ring.now)
        × (result ≤ at + 896) }
{
    if ring.is_empty() {
        return at;
    }
    let a = glyphs::text(out, at, b"ring");
    let b = task_numbers(out, a, ring);
    glyphs::put(out, b, 10)
}

// The whole text, at the start of a buffer that has room for any.
fn told(out: &mut [u8], reasons: Reasons, clock: Millis) -> usize
    requires { 32768 ≤ length out.old }
    ensures { Adds out.old 0 out.new result (text_of reasons clock) × (result ≤ 32768) }
{
    if reasons.number != 0 {
        return said(out, 0, b"refused ", reasons.number as u64, b"\n");
    }
    let path = &reasons.steps[..(reasons.length as usize).min(16)];
    let start = reasons.length.saturating_sub(reasons.ring) as usize;
    let a = said(out, 0, b"clock ", clock.0, b" ms\n");
    let b = step_lines(out, a, path);
    ring_line(out, b, &path[start.min(path.len())..])
}

// The answer as text, at the start of a buffer: its length, or 0 and nothing written where it does not fit.
// A length, 0 where it does not fit: it is public, and its contract says so.
pub fn tell(reasons: Reasons, clock: Millis, out: &mut [u8]) -> usize
    ensures { Tells reasons clock out.old out.new result }
{
    let mut buffer = [0u8; 32768];
    let n = told(&mut buffer, reasons, clock);
    glyphs::text(out, 0, &buffer[..n])
}
