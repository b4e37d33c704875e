//! The first refusal of those that were reported so far.

ghost use Rattle.std.specs.Prelude.{◌≡◌, None};
ghost use Rattle.sw_findings.specs.Found.{keep, keep_all, precedes, when};

use std::marker::Model;
use sw_base::Span;
use sw_rules::{Refusal, Rule};

/// What a pass has found so far, which contracts see as the first of the refusals that it reported.
///
/// A pass reports each broken rule as it meets it, in any order.
#[derive(Debug, Drop)]
pub struct Findings {
    kept: Option<Refusal>,
}

impl Model for Findings {
    ghost use Rattle.std.specs.Prelude.{Option};
    ghost use Rattle.sw_rules.specs.declared.Refusal.{Refusal};

    ghost Value = { Option Refusal };

    ghost view = { λ findings. findings.kept };
}

/// Tells whether the first of two refusals precedes the second: by pass, then by place, then by the list of rules.
#[tactic(auto, unfolding(crate::specs::Found::precedes))]
fn comes_first(a: &Refusal, b: &Refusal) -> bool
    ensures { result ≡ precedes a.now b.now }
{
    let a_pass = a.rule.pass();
    let b_pass = b.rule.pass();
    a_pass < b_pass
        || (a_pass == b_pass
            && (a.span.line < b.span.line
                || (a.span.line == b.span.line
                    && (a.span.column < b.span.column
                        || (a.span.column == b.span.column && a.rule.stands_before(&b.rule))))))
}

impl Findings {
    /// Nothing is found yet.
    pub fn new() -> Findings
        ensures { result ≡ None }
    {
        Findings { kept: None }
    }

    /// Where the rule is broken, keeps the refusal if it precedes what was found so far.
    #[tactic(auto, unfolding(crate::specs::Found::keep, crate::specs::Found::keep_all, crate::specs::Found::when))]
    pub fn report(&mut self, broken: bool, rule: Rule, span: Span)
        ensures { self.new ≡ keep_all self.old (when broken rule span) }
    {
        if broken {
            let new = Refusal { rule, span };
            match self.kept {
                None => {
                    self.kept = Some(new);
                }
                Some(kept) => {
                    if comes_first(&new, &kept) {
                        self.kept = Some(new);
                    }
                }
            }
        }
    }

    /// The first refusal, where there is one.
    pub fn first(&self) -> Option<Refusal>
        ensures { result ≡ self.now }
    {
        self.kept
    }
}
