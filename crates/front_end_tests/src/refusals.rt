//! The texts of refusals, of one rule of each pass, and each public call once where memory is ample.

use std::test::Fail;
use sw_base::{NoMemory, Span};
use sw_rules::{FrontError, Refusal, Rule, line};

fn refusal(rule: Rule, line: u32, column: u32) -> Refusal {
    Refusal {
        rule,
        span: Span { line, column },
    }
}

#[test]
fn a_refusal_is_told_by_its_rule_and_its_place(rt: HostRuntime) -> Result<(), Fail> {
    for (rule, pass, at_line, column, want) in [
        (Rule::L3, 1, 1, 1, "refused L3 1:1\n"),
        (Rule::P4, 2, 2, 25, "refused P4 2:25\n"),
        (Rule::N3, 3, 1, 18, "refused N3 1:18\n"),
        (Rule::T9, 4, 1048577, 10, "refused T9 1048577:10\n"),
        (Rule::E12, 5, 7, 109, "refused E12 7:109\n"),
        (Rule::I3, 6, 15, 21, "refused I3 15:21\n"),
        (Rule::I13, 7, 2, 4294967295, "refused I13 2:4294967295\n"),
    ] {
        let refusal = refusal(rule, at_line, column);
        let text = line(rt.alloc(), &refusal)?;
        assert_eq!(rt; text.as_bytes(), want.as_bytes(), "{want}");
        assert_eq!(rt; rule.pass(), pass, "{want}");
    }
    Ok(())
}

#[test]
fn rules_and_errors_are_displayed(rt: HostRuntime) -> Result<(), Fail> {
    assert_eq!(rt; Rule::B8.name(), "B8");
    assert_eq!(rt; Rule::E10.to_string(rt.alloc())?.as_str(), "E10");
    let refused = FrontError::Refused(refusal(Rule::L5, 1, 1));
    assert_eq!(rt; refused.to_string(rt.alloc())?.as_str(), "refused L5 1:1");
    assert_eq!(rt;
        FrontError::from(NoMemory).to_string(rt.alloc())?.as_str(),
        "out of memory"
    );
    assert!(rt; Rule::I2 < Rule::I13 && Rule::E9 < Rule::E10);
    assert!(rt; Rule::L1.stands_before(&Rule::L2) && !Rule::L2.stands_before(&Rule::L2));
    Ok(())
}
