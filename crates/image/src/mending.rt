// Mending an image: the table of its bytes is mended, and each entry whose bytes differ is listed, also where they held
// no more than its state has no use for.
ghost use Rattle.std.specs.Prelude.{◌≡◌, ◌≤◌, ◌<◌, length};
ghost use Rattle.image.specs.Blocks.{written};
ghost use Rattle.image.specs.Image.{image_length};
ghost use Rattle.image.specs.Mending.{is_plain, rule_for, list_rule, notes_from, placed, with_note, list_length, note_bytes, notes_bytes, MendsImage};

use crate::laying::Block;
use crate::{AWAITED, IMAGE, checking, laying, loading, numbers, storing};
use executive::Millis;
use mender::{Note, mending};
use records::TaskNo;

const NO_NOTE: Note = Note {
    task: TaskNo(0),
    rule: 0,
};

// The rule of an entry that is not listed. A number and no Option: a note's own rule is a byte of the C interface, any
// byte, and one that is this number lists nothing either.
const NO_RULE: u8 = 255;

// The list: its first `noted` places are taken. An array and a count: there is no heap, and its bytes have both.
#[derive(Clone, Copy)]
pub(crate) struct Notes {
    pub(crate) list: [Note; 16],
    pub(crate) noted: u8,
}

// Whether the bytes of the entry at place i hold nothing that its state does not use.
fn is_plain(bytes: &[u8], i: usize) -> bool
    requires { (i < 16) × (image_length ≤ length bytes.now) }
    ensures { result ≡ is_plain bytes.now i }
{
    let at = i * 26;
    let kind = numbers::byte_in(bytes, at + 1);
    let time = numbers::long_in(bytes, at + 2);
    let mask = numbers::word_in(bytes, at + 10);
    let number = numbers::byte_in(bytes, AWAITED + i);
    checking::is_code(kind, Millis(time), mask, number)
}

// The rule of the first note of task k; another where there is none.
fn rule_for(list: &[Note], k: u8, otherwise: u8) -> u8
    ensures { result ≡ rule_for otherwise k list.now }
{
    for note in list {
        if k == note.task.0 {
            return note.rule;
        }
    }
    otherwise
}

// The rule with which the entry at place i is listed, beside the list of the mending.
fn list_rule(bytes: &[u8], list: &[Note], i: usize) -> u8
    requires { (i < 16) × (image_length ≤ length bytes.now) }
    ensures { result ≡ list_rule bytes.now list.now i }
{
    let k = i as u8 + 1;
    if is_plain(bytes, i) {
        return rule_for(list, k, NO_RULE);
    }
    rule_for(list, k, 0)
}

// One more note, where the rule is one.
fn with_note(l: Notes, k: u8, rule: u8) -> Notes
    requires { l.noted < 16 }
    ensures { result ≡ with_note k rule l }
{
    if rule == NO_RULE {
        return l;
    }
    let mut list = l.list;
    let n = l.noted;
    list[n as usize] = Note {
        task: TaskNo(k),
        rule,
    };
    Notes { list, noted: n + 1 }
}

// The whole list of some bytes, beside the list of the mending.
fn notes_of(bytes: &[u8], given: &[Note]) -> Notes
    requires { image_length ≤ length bytes.now }
    ensures { result ≡ placed (notes_from (list_rule bytes.now given.now) 16 0) }
{
    let mut l = Notes {
        list: [NO_NOTE; 16],
        noted: 0,
    };
    for i in 0..16 {
        let rule = list_rule(bytes, given, i);
        l = with_note(l, i as u8 + 1, rule);
    }
    l
}

// A note of the list: the task and the rule.
impl Block for Note {
    ghost WIDTH = { 2 };

    ghost bytes = { note_bytes };

    const WIDTH: usize = 2;

    fn put(&self, out: &mut [u8], at: usize) {
        storing::put_both(out, at, self.task.0, self.rule);
    }
}

// Writes a list over 33 bytes: how many places are taken, and behind that all sixteen.
fn put_list(out: &mut [u8], l: &Notes)
    requires { list_length ≤ length out.old }
    ensures { out.new ≡ written out.old 0 (notes_bytes l.now) }
{
    numbers::put_byte(out, 0, l.noted);
    laying::put_row(out, 1, &l.list);
}

// Mends the bytes of an image, whatever they are.
pub(crate) fn mend_whole(image: &mut [u8; IMAGE], list: &mut [u8]) -> u8
    requires { list_length ≤ length list.old }
    ensures { MendsImage image.old list.old image.new list.new result }
{
    let table = loading::load_whole(image);
    let mended = mending::mend(table);
    let number = mended.number;
    if number != 0 {
        return number;
    }
    let notes = notes_of(image, &mended.list);
    put_list(list, &notes);
    storing::put_table(image, &mended.table);
    0
}
