// The list of the entries that differ, by task number.
ghost use Rattle.std.specs.Prelude.{◌≡◌, [], ◌<◌};
ghost use Rattle.mender.specs.Rules.{rule_number, numbers_of};
ghost use Rattle.mender.specs.Listing.{note_rule, notes_of, noted_of, noted_with};

use crate::filled::Filled;
use crate::{Note, Rule, rules};
use executive::{Task, states};
use records::TaskNo;

const NO_NOTE: Note = Note {
    task: TaskNo(0),
    rule: 0,
};

// The rule with which an entry is noted that was e, is f now, and broke the own rule b; none where it is as it was.
#[tactic(auto, using(crate::proofs::CodeTests::has_number), unfolding(crate::specs::Listing::note_rule))]
fn note_rule(count: u8, b: Option<Rule>, e: Task, f: Task) -> Option<Rule>
    ensures { rule_number result ≡ note_rule count (rule_number b) e f }
{
    if let Some(rule) = b {
        return Some(rule);
    }
    if e.end_waiter != f.end_waiter {
        if count < e.end_waiter.0 {
            return Some(Rule::Range);
        }
        return Some(Rule::Link);
    }
    if states::kind_of(e.state) == states::kind_of(f.state) {
        return None;
    }
    Some(Rule::Lost)
}

// No note yet.
#[tactic(auto, unfolding(executive::specs::Lists::pad))]
pub(crate) fn none() -> Filled<Note, 16>
    ensures { result ≡ noted_of [] }
{
    Filled {
        places: [NO_NOTE; 16],
        taken: 0,
    }
}

// One more note, where a rule was broken.
fn with_note(l: Filled<Note, 16>, k: TaskNo, rule: Option<Rule>) -> Filled<Note, 16>
    requires { l.taken < 16 }
    ensures { result ≡ noted_with k (rule_number rule) l }
{
    match rule {
        Some(rule) => {
            let mut places = l.places;
            let rule = rules::number_of(rule);
            places[l.taken as usize] = Note { task: k, rule };
            Filled {
                places,
                taken: l.taken + 1,
            }
        }
        None => l,
    }
}

pub(crate) fn notes_of(
    count: u8,
    broken: [Option<Rule>; 16],
    given: [Task; 16],
    mended: [Task; 16],
) -> Filled<Note, 16>
    ensures { result ≡ noted_of (notes_of count (numbers_of broken) given mended) }
{
    let mut l = none();
    for i in 0..16 {
        let rule = note_rule(count, broken[i], given[i], mended[i]);
        l = with_note(l, TaskNo(i as u8 + 1), rule);
    }
    l
}
