// The image of the second engine's table: read, written, and held against some bytes.
ghost use Rattle.std.specs.Prelude.{◌≡◌, ◌+◌, ◌*◌, ◌≤◌, length};
ghost use Rattle.scan.specs.Step.{bare};
ghost use Rattle.image.specs.Blocks.{blocks, written};
ghost use Rattle.scan_board.specs.Image.{word_bytes, numbers_length, scan_length, numbers_bytes, scan_image, word_from, entry_from, scan_load, is_scan, FitsScan};

use crate::IMAGE;
use executive::{Table, Task};
use image::{loading, numbers, storing};
use records::TaskNo;
use scan::{Entry, Scanned, moves};
use std::array;

// The first engine's table with the same entries and rest, and nobody in its queue.
fn bare_of(table: Scanned) -> Table
    ensures { result ≡ bare table }
{
    Table {
        tasks: moves::tasks_in(table.entries),
        queue: [TaskNo(0); 16],
        ready: 0,
        levels: 0,
        rest: table.rest,
    }
}

// The i-th of a row of numbers.
fn number_in(bytes: &[u8], i: u8) -> u32
    requires { i * 4 + 4 ≤ length bytes.now }
    ensures { result ≡ word_from bytes.now (i * 4) }
{
    numbers::number_at(bytes, i)
}

// The tasks, each with its number in the bytes.
fn entries_in(tasks: [Task; 16], bytes: &[u8]) -> [Entry; 16]
    requires { length bytes.now ≡ numbers_length }
    ensures { result ≡ blocks (entry_from tasks bytes.now) 1 16 0 }
{
    array::from_fn(|i| Entry {
        task: tasks[i],
        arrival: number_in(bytes, i as u8),
    })
}

// The table of some bytes of an image's length.
pub(crate) fn load(bytes: &[u8]) -> Scanned
    requires { length bytes.now ≡ scan_length }
    ensures { result ≡ scan_load bytes.now }
{
    let t = loading::load(&bytes[..image::IMAGE]);
    let tail = &bytes[image::IMAGE..];
    Scanned {
        entries: entries_in(t.tasks, tail),
        last: number_in(tail, 16),
        rest: t.rest,
    }
}

// Writes the i-th of a row of numbers.
fn put_number(out: &mut [u8], i: u8, number: u32)
    requires { i * 4 + 4 ≤ length out.old }
    ensures { out.new ≡ written out.old (i * 4) (word_bytes number) }
{
    numbers::put_number(out, i, number);
}

// Writes the arrival numbers and the last one given over a buffer of their length.
fn put_numbers(out: &mut [u8], entries: [Entry; 16], last: u32)
    requires { length out.old ≡ numbers_length }
    ensures { (length entries ≡ 16) × (out.new ≡ numbers_bytes entries last) }
{
    for (i, x) in entries.iter().enumerate() {
        put_number(out, i as u8, x.arrival);
    }
    put_number(out, 16, last);
}

// Writes the image over a buffer of its length.
pub(crate) fn put_scan(out: &mut [u8], table: Scanned)
    requires { length out.old ≡ scan_length }
    ensures { (FitsScan table) × (out.new ≡ scan_image table) }
{
    storing::store(bare_of(table), &mut out[..image::IMAGE]);
    put_numbers(&mut out[image::IMAGE..], table.entries, table.last);
}

// Whether some bytes are an image: byte for byte the image of the table that they load to.
pub(crate) fn is_scan(bytes: &[u8]) -> bool
    ensures { result ≡ is_scan bytes.now }
{
    if bytes.len() != IMAGE {
        return false;
    }
    let mut image = [0u8; IMAGE];
    put_scan(&mut image, load(bytes));
    image.as_slice() == bytes
}
