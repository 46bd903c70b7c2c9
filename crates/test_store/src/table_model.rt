//! Tables worked by hand, and the names of rules.
ghost use Rattle.test_store.specs.Worked.{WorkedByHand};

use std::test::Fail;
use td_table_model::Rule;

// What the worked tables hold, and what changes do to them.
fn worked_by_hand()
    ensures { WorkedByHand }
{}

#[test]
fn tables_worked_by_hand_hold_their_content() {
    worked_by_hand();
}

const RULES: [(Rule, &str); 8] = [
    (Rule::S1, "S1"),
    (Rule::S2, "S2"),
    (Rule::S3, "S3"),
    (Rule::S4, "S4"),
    (Rule::S5, "S5"),
    (Rule::S6, "S6"),
    (Rule::S7, "S7"),
    (Rule::S8, "S8"),
];

#[test]
fn a_rule_is_printed_by_its_name(rt: HostRuntime) -> Result<(), Fail> {
    for (rule, name) in RULES {
        let printed = format!(in rt.alloc(); "{rule}")?;
        assert!(rt; printed.as_str() == name);
    }
    Ok(())
}
