//! Which of the rules comes first.
ghost use Rattle.std.specs.Prelude.{◌≡◌, ◌↔◌, IsTrue, None};
ghost use Rattle.td_table_model.specs.Rules.{rule_no};
ghost use Rattle.td_store_audit.specs.FirstRule.{IsBefore, IsFirstNot};
ghost use Rattle.td_store_audit.specs.HolderRules.{IsReadFor};

use td_store_audit_rows::Readable;
use td_table_model::Rule;

// A rule's place among them.
fn place_of(rule: Rule) -> u8
    ensures { result ≡ rule_no rule }
{
    match rule {
        Rule::S1 => 1,
        Rule::S2 => 2,
        Rule::S3 => 3,
        Rule::S4 => 4,
        Rule::S5 => 5,
        Rule::S6 => 6,
        Rule::S7 => 7,
        Rule::S8 => 8,
    }
}

/// Whether a rule comes before another; each does where there is none.
pub fn comes_before(rule: Rule, end: Option<Rule>) -> bool
    ensures { IsTrue result ↔ IsBefore rule end }
{
    match end {
        Some(other) => place_of(rule) < place_of(other),
        None => true,
    }
}

/// The first rule whose own table can't be read row by row, or none.
pub fn first_unread(readable: Readable) -> Option<Rule>
    ensures { IsFirstNot (IsReadFor readable) None result }
{
    if !readable.guarantees {
        return Some(Rule::S3);
    }
    if !readable.codes {
        return Some(Rule::S4);
    }
    if !readable.movements {
        return Some(Rule::S5);
    }
    if !readable.lines {
        return Some(Rule::S6);
    }
    None
}
