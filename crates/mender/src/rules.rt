// The own rules of a task's entry: the first one that it breaks.
ghost use Rattle.std.specs.Prelude.{◌≡◌};
ghost use Rattle.executive.specs.Lists.{all_of};
ghost use Rattle.mender.specs.Rules.{numbers_kept, zeros_kept, unfit, none_fits, first_broken, past_broken, own_rule, own_rules, number_of, rule_number, numbers_of};

use crate::Rule;
use executive::{Mail, Message, Rest, Table, Task, messages, rules, states};
use records::TaskNo;
use std::array;

fn numbers_kept(e: Task, x: Mail, count: u8) -> bool
    ensures { result ≡ numbers_kept count e x }
{
    rules::numbers_in_range(e, count) && x.sender.0 <= count
}

// A dormant task holds zeros but for its own priority, and no mail.
fn zeros_kept(e: Task, x: Mail) -> bool
    ensures { result ≡ zeros_kept e x }
{
    if !states::is_dormant(e.state) {
        return true;
    }
    rules::is_zero(e) && rules::is_no_mail(x)
}

// No message at any place fits one who receives as task k, from number s or, where s is 0, from any.
fn all_unfit(places: [Message; 32], k: TaskNo, s: TaskNo) -> bool
    ensures { result ≡ all_of (unfit k.0 s.0) places }
{
    places.iter().all(|m| !messages::is_fit(*m, k, s))
}

fn none_fits(e: Task, places: [Message; 32], k: TaskNo) -> bool
    ensures { result ≡ none_fits k.0 places e.state }
{
    if !states::is_of(e.state, states::AWAIT_MESSAGE) {
        return true;
    }
    all_unfit(places, k, TaskNo(states::awaited_of(e.state)))
}

// The number of a rule, as a list has it. A list's bytes are the C interface: only here a rule becomes a number.
pub(crate) fn number_of(rule: Rule) -> u8
    ensures { result ≡ number_of rule }
{
    match rule {
        Rule::Range => 1,
        Rule::Time => 3,
        Rule::Start => 4,
        Rule::Mask => 5,
        Rule::Link => 7,
        Rule::Dormant => 8,
        Rule::Message => 11,
        Rule::Lost => 13,
    }
}

// The first own rule that the entry of a task within the count breaks.
#[tactic(auto, unfolding(crate::specs::Rules::first_broken))]
fn first_broken(r: Rest, k: TaskNo, e: Task, x: Mail) -> Option<Rule>
    ensures { rule_number result ≡ first_broken r k.0 e x }
{
    if !numbers_kept(e, x, r.count) {
        return Some(Rule::Range);
    }
    if !rules::is_timely(e.state, r.clock) {
        return Some(Rule::Time);
    }
    if r.clock.0 < e.start.0 {
        return Some(Rule::Start);
    }
    if !rules::is_unmet(e.state, r.flags) {
        return Some(Rule::Mask);
    }
    if !zeros_kept(e, x) {
        return Some(Rule::Dormant);
    }
    if !none_fits(e, r.messages, k) {
        return Some(Rule::Message);
    }
    None
}

// An entry past the task count is zero.
#[tactic(auto, unfolding(crate::specs::Rules::past_broken))]
fn past_broken(e: Task, x: Mail) -> Option<Rule>
    ensures { rule_number result ≡ past_broken e x }
{
    if rules::is_blank(e) && rules::is_no_mail(x) {
        return None;
    }
    Some(Rule::Range)
}

#[tactic(auto, unfolding(crate::specs::Rules::own_rule))]
fn own_rule(r: Rest, k: TaskNo, e: Task, x: Mail) -> Option<Rule>
    ensures { rule_number result ≡ own_rule r k.0 e x }
{
    if r.count < k.0 {
        return past_broken(e, x);
    }
    first_broken(r, k, e, x)
}

// The own rule that each entry breaks, by place.
pub(crate) fn own_rules(t: Table) -> [Option<Rule>; 16]
    ensures { numbers_of result ≡ own_rules t }
{
    array::from_fn(|i| own_rule(t.rest, TaskNo(i as u8 + 1), t.tasks[i], t.rest.mail[i]))
}
