//! Laws of the rules over tables as they stand in a file, as contracts of functions that do nothing else.
ghost use Rattle.td_store_audit_rows.specs.Laws.{ContentKeepsRules, KeptRulesMeanContent};

/// Tables that keep each rule as they stand hold sound content.
pub fn kept_rules_mean_content()
    ensures { KeptRulesMeanContent }
{}

/// Typed tables of sound content keep each rule as they stand.
pub fn content_keeps_rules()
    ensures { ContentKeepsRules }
{}
